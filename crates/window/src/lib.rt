// Which timestamps of each client were applied, and the delivery of requests by them.
#![tactic(auto)]

pub mod delivery;
pub mod laws;
mod marking;
mod span;
pub mod window;
pub mod windows;
