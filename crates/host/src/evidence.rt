// Which records of a parting are evidence, and for what.
ghost use Rattle.std.specs.Prelude.{◌≡◌};
ghost use Rattle.host.specs.Partings.{is_checkpoint, is_prepare};

use wire::kinds::Kind;
use wire::records::{Sealed, Statement};

pub(crate) fn is_checkpoint(r: &Sealed, number: u64) -> bool
    ensures { result ≡ is_checkpoint number r.now }
{
    r.statement.kind == Kind::Checkpoint && r.statement.number == number
}

// Whether a record is a prepare of what a held statement claims for s.
#[tactic(auto, unfolding(wire::specs::Values::same_digest))]
pub(crate) fn is_prepare(r: &Sealed, s: u64, claim: &Statement) -> bool
    ensures { result ≡ is_prepare s claim.now r.now }
{
    r.statement.kind == Kind::Prepare
        && r.statement.epoch == claim.held
        && r.statement.number == s
        && r.statement.digest == claim.digest
}
