// What controllers and clients send each other: statements, requests and batches, and their frames.
#![tactic(auto)]

mod batches;
mod bytes;
pub mod faults;
pub mod frame;
pub mod kinds;
pub mod laws;
pub mod reading;
pub mod records;
mod values;
pub mod writing;
