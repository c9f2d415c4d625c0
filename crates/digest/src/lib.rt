// Digests: what a digest is, FNV-1a of 64 bits, and SHA-256.
#![tactic(auto)]

pub mod batches;
pub mod fnv;
pub mod interface;
pub mod laws;
pub mod sha256;
pub mod truncated;
