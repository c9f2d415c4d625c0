// The tanks: clients set what they hold and how warm they are kept, and move litres between them.
#![tactic(auto)]

mod carry_out;
mod farm;
pub mod laws;
mod marking;
pub mod operate;
pub mod order;
pub mod state;
pub mod tank;
