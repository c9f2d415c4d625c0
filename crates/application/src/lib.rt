// What the log's orders are applied to.
#![tactic(auto)]

pub mod codes;
pub mod interface;
