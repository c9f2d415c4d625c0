// The walk over a dossier.
ghost use Rattle.std.specs.Prelude.{◌≡◌, ◌+◌, ◌≤◌, [], length, take, Ok, MatchResult};
ghost use Rattle.dossier.specs.Walk.{onward, found, numbers, mark_at, checkpoints, largest, after_stables, walked};
ghost use Rattle.dossier.specs.Laws.{Admitted};

use crate::parts::{Claim, NO_CLAIM, Opened};
use crate::stable::base_of;
use crate::tally::Found;
use crate::target::Target;
use group::check::group;
use group::rules::Exact;
use seal::checker::SealChecker;
use wire::kinds::Kind;
use wire::records::{DigestValue, Sealed};

// The records and the stable statements are handed on, and are no struct of their own: each clause
// would name them, the checker and the terms by a longer path.
impl<C: SealChecker> Target<'_, C> {
    // The claim of a number, and the place after its records.
    fn number(
        &self,
        records: &[Sealed],
        stables: &[Sealed],
        s: u64,
        place: usize,
    ) -> Result<Found<Claim>, usize>
        ensures { result ≡ found (C.accepts self.now.checker.now) self.now.terms records.now stables.now s place }
    {
        let helds = self.held_group(records, stables, s, place)?;
        let claim = helds.value.claim;
        if claim.epoch == 0 {
            return Ok(Found {
                value: claim,
                next: helds.next,
            });
        }
        let rule = Exact {
            checker: self.checker,
            kind: Kind::Prepare,
            epoch: claim.epoch,
            number: s,
            digest: claim.digest,
        };
        let next = group(records, helds.next, self.terms.threshold, &rule)?;
        Ok(Found { value: claim, next })
    }

    // The claims of the 32 numbers above the base, and the place after their records.
    fn all_numbers(
        &self,
        records: &[Sealed],
        stables: &[Sealed],
        base: u64,
        place: usize,
    ) -> Result<Found<[Claim; 32]>, usize>
        requires { base ≤ 1000000000000 }
        ensures { result ≡ numbers (C.accepts self.now.checker.now) self.now.terms records.now stables.now 32 (base + 1) place [] }
    {
        let mut claims = [NO_CLAIM; 32];
        let mut next = place;
        for (k, claim) in claims.iter_mut().enumerate() {
            let found = self.number(records, stables, base + 1 + k as u64, next)?;
            *claim = found.value;
            next = found.next;
        }
        Ok(Found {
            value: claims,
            next,
        })
    }

    // The mark of the checkpoints for the base, and the place after them; mark 0 for base 0, which
    // has none.
    fn marked(
        &self,
        records: &[Sealed],
        base: u64,
        place: usize,
    ) -> Result<Found<DigestValue>, usize>
        ensures { result ≡ onward (checkpoints (C.accepts self.now.checker.now) self.now.terms records.now base place) (λ p. Ok (record { value = mark_at records.now base place; next = p })) }
    {
        let none = DigestValue::from(0);
        if base == 0 {
            return Ok(Found {
                value: none,
                next: place,
            });
        }
        let mark = records.get(place).map_or(none, |r| r.statement.digest);
        let rule = Exact {
            checker: self.checker,
            kind: Kind::Checkpoint,
            epoch: 0,
            number: base,
            digest: mark,
        };
        let next = group(records, place, self.terms.threshold, &rule)?;
        Ok(Found { value: mark, next })
    }

    // What follows the stable statements, which end at a place.
    fn after_stables(&self, records: &[Sealed], place: usize) -> Result<Opened, usize>
        requires { (self.now.terms.threshold.q ≤ length records.now) × (largest (take self.now.terms.threshold.q records.now) ≤ 1000000000000) }
        ensures { result ≡ after_stables (C.accepts self.now.checker.now) self.now.terms records.now (largest (take self.now.terms.threshold.q records.now)) place }
    {
        let stables = &records[..self.terms.threshold.q];
        let base = base_of(stables);
        let mark = self.marked(records, base, place)?;
        let span = self.all_numbers(records, stables, base, mark.next)?;
        if span.next < records.len() {
            return Err(span.next);
        }
        let claims = span.value;
        Ok(Opened {
            base,
            mark: mark.value,
            claims,
        })
    }

    // What a dossier says, or the index of its first record at fault, missing or surplus.
    #[tactic(auto, using(crate::proofs::Sound::judged))]
    pub fn walk(&self, records: &[Sealed]) -> Result<Opened, usize>
        ensures exact { result ≡ walked (C.accepts self.now.checker.now) self.now.terms records.now }
        ensures judged { MatchResult result (Admitted (C.accepts self.now.checker.now) self.now.terms records.now) (λ i. i ≤ length records.now) }
    {
        let place = group(records, 0, self.terms.threshold, self)?;
        self.after_stables(records, place)
    }
}
