// The host's side of a house, as programs share it: exercise seals, and putting a dossier together.
#![tactic(auto)]

pub mod assembly;
mod evidence;
pub mod keys;
pub mod laws;
mod partings;
