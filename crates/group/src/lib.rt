// The one check of records by ascending signers.
#![tactic(auto)]

pub mod check;
pub mod laws;
pub mod rules;
pub mod signed;
