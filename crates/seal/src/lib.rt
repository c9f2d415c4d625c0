// Whether a seal is genuine: what a checker is, and the roll.
#![tactic(auto)]

pub mod checker;
pub mod laws;
pub mod roll;
