// Rules that the records of a group keep, besides the order of their signers.
ghost use Rattle.std.specs.Prelude.{◌≡◌, Bool, true};
ghost use Rattle.group.specs.Group.{exactly};

use seal::checker::SealChecker;
use wire::kinds::Kind;
use wire::records::{DigestValue, Sealed};

// A trait, and no closure: the check answers a function of the rule, and a closure's bound gives a relation.
pub trait Rule<T> {
    ghost allows: { Self → T → Bool };

    fn allowed(&self, x: &T) -> bool
        ensures { result ≡ allows self.now x.now };
}

// No rule: the signers alone count, as with the votes that a place keeps.
#[derive(Clone, Copy)]
pub struct AnyMark;

impl<T> Rule<T> for AnyMark {
    ghost allows = { λ _ _. true };

    fn allowed(&self, _x: &T) -> bool {
        true
    }
}

// A genuine statement of one kind, epoch, number and digest: prepares, commits, checkpoints.
#[derive(Drop)]
pub struct Exact<'a, C: SealChecker> {
    pub checker: &'a C,
    pub kind: Kind,
    pub epoch: u32,
    pub number: u64,
    pub digest: DigestValue,
}

impl<'a, C: SealChecker> Rule<Sealed> for Exact<'a, C> {
    ghost allows = { λ r s. exactly (C.SealChecker.accepts r.checker.now) r.kind r.epoch r.number r.digest s };

    #[tactic(auto, unfolding(wire::specs::Values::same_digest))]
    // the seal is tried last
    fn allowed(&self, x: &Sealed) -> bool {
        let st = x.statement;
        st.kind == self.kind
            && st.epoch == self.epoch
            && st.number == self.number
            && st.held == 0
            && st.digest == self.digest
            && self.checker.genuine(&st, x.seal)
    }
}
