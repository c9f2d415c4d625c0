// The valves: clients pay to open them, and each other.
#![tactic(auto)]

mod book;
mod carry_out;
pub mod laws;
mod marking;
pub mod operate;
pub mod order;
pub mod state;
