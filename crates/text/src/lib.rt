// Text that programs read: frames in hexadecimal, and numbers.
#![tactic(auto)]

pub mod fault;
pub mod hex;
pub mod numbers;
