// What a controller keeps, what its seven calls mean (specs/), and what each is refused for.
#![tactic(auto)]

pub mod begin;
pub mod leaders;
pub mod records;
pub mod refusal;
pub mod refuse;
mod requests;
