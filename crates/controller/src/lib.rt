// A controller: its code, call by call. What the calls mean and what they are refused for is in `protocol`.
#![tactic(auto)]

pub mod calls;
pub mod controller;
mod deliver;
mod enter;
mod give_up;
mod offer;
mod post;
mod progress;
pub mod reads;
mod turn;
mod vote;
