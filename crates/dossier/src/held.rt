// The held statements of one number.
ghost use Rattle.std.specs.Prelude.{◌≡◌};
ghost use Rattle.dossier.specs.Walk.{asked, last_asked, tallied, held_fits, held_one, helds};

use crate::parts::{Claim, NO_CLAIM};
use crate::tally::{Found, Tally};
use crate::target::Target;
use seal::checker::SealChecker;
use wire::kinds::Kind;
use wire::records::{DigestValue, Sealed, Statement};

// Whether the signer of a stable statement owes a held statement for s: its stable number is at
// least s - 32.
fn is_asked(t: &Sealed, s: u64) -> bool
    ensures { result ≡ asked s t.now }
{
    t.statement.number >= s.saturating_sub(32)
}

// The place of the last stable statement whose signer is asked for s, or 0.
fn last_place(stables: &[Sealed], s: u64) -> usize
    ensures { result ≡ last_asked s 0 0 stables.now }
{
    stables.iter().rposition(|t| is_asked(t, s)).unwrap_or(0)
}

impl Tally {
    // One more held statement.
    #[tactic(auto, unfolding(wire::specs::Values::same_digest))]
    fn with(&self, st: &Statement) -> Tally
        ensures { result ≡ tallied self.now st.now }
    {
        if self.claim.epoch < st.held {
            let claim = Claim {
                epoch: st.held,
                digest: st.digest,
            };
            return Tally {
                claim,
                clash: false,
            };
        }
        if st.held == self.claim.epoch && st.digest != self.claim.digest {
            return Tally {
                clash: true,
                ..*self
            };
        }
        *self
    }
}

// A held statement that is looked for: its number, its signer, and whether it is the last of that
// number.
#[derive(Clone, Copy)]
struct Sought {
    pub number: u64,
    pub signer: u8,
    pub is_last: bool,
}

impl Sought {
    // Whether a statement is the one for the new epoch, its seal aside.
    #[tactic(auto, unfolding(wire::specs::Values::same_digest))]
    fn fits(&self, st: &Statement, epoch: u32) -> bool
        ensures { result ≡ held_fits epoch self.now.number self.now.signer st.now }
    {
        st.kind == Kind::Held
            && st.signer == self.signer
            && st.epoch == epoch
            && st.number == self.number
            && st.held < epoch
            && (st.held != 0 || st.digest == DigestValue::from(0))
    }
}

impl<C: SealChecker> Target<'_, C> {
    // The tally after the held statement at a place, or None where it is at fault or missing.
    fn held(&self, records: &[Sealed], place: usize, sought: Sought, tally: &Tally) -> Option<Tally>
        ensures { result ≡ held_one (C.accepts self.now.checker.now) self.now.terms records.now sought.number sought.signer sought.is_last tally.now place }
    {
        let r = records.get(place)?;
        let after = tally.with(&r.statement);
        let stands = sought.fits(&r.statement, self.terms.epoch)
            && !(sought.is_last && after.clash)
            && self.checker.genuine(&r.statement, r.seal);
        stands.then_some(after)
    }

    // The held statements for s, of every signer that is asked, in the order of the stable ones.
    pub(crate) fn held_group(
        &self,
        records: &[Sealed],
        stables: &[Sealed],
        s: u64,
        place: usize,
    ) -> Result<Found<Tally>, usize>
        ensures { result ≡ helds (C.accepts self.now.checker.now) self.now.terms records.now s place stables.now }
    {
        let last = last_place(stables, s);
        let mut tally = Tally {
            claim: NO_CLAIM,
            clash: false,
        };
        let mut next = place;
        for (j, t) in stables.iter().enumerate() {
            if is_asked(t, s) {
                let sought = Sought {
                    number: s,
                    signer: t.statement.signer,
                    is_last: j == last,
                };
                tally = self.held(records, next, sought, &tally).ok_or(next)?;
                next += 1;
            }
        }
        Ok(Found { value: tally, next })
    }
}
