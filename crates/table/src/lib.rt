// What a controller keeps of the numbers that it works on: votes, places, certificates, checkpoints.
#![tactic(auto)]

pub mod ballots;
pub mod places;
pub mod records;
mod shift;
pub mod window;
