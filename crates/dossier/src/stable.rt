// The stable statements, and the base that they give.
ghost use Rattle.std.specs.Prelude.{◌≡◌};
ghost use Rattle.dossier.specs.Walk.{stable_fits, largest};

use crate::parts::LAST;
use crate::target::Target;
use group::rules::Rule;
use seal::checker::SealChecker;
use wire::kinds::Kind;
use wire::records::{DigestValue, Sealed};

// A stable statement for the new epoch; its seal is tried last.
impl<'a, C: SealChecker> Rule<Sealed> for Target<'a, C> {
    ghost allows = { λ w r. stable_fits (C.SealChecker.accepts w.checker.now) w.terms r };

    #[tactic(auto, unfolding(wire::specs::Values::same_digest))]
    fn allowed(&self, x: &Sealed) -> bool {
        let st = x.statement;
        st.kind == Kind::Stable
            && st.epoch == self.terms.epoch
            && st.number % 16 == 0
            && st.number <= LAST
            && st.held == 0
            && st.digest == DigestValue::from(0)
            && self.checker.genuine(&st, x.seal)
    }
}

// The largest stable number.
pub(crate) fn base_of(stables: &[Sealed]) -> u64
    ensures { result ≡ largest stables.now }
{
    stables
        .iter()
        .fold(0, |base, t| base.max(t.statement.number))
}
