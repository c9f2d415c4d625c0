// The dossier: the sealed records that justify a new epoch, and the walk that judges them.
#![tactic(auto)]

mod held;
pub mod laws;
pub mod opened;
pub mod parts;
mod stable;
mod tally;
pub mod target;
mod walk;
