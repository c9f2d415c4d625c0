// A house: its controllers, their runs, and that they keep one log.
#![tactic(auto)]

pub mod law;
pub mod member_calls;
pub mod members;
pub mod opening;
