// A house's size and its quorums: any two of them share an honest controller.
#![tactic(auto)]

pub mod house;
pub mod laws;
