// What an accepted dossier chooses.
ghost use Rattle.std.specs.Prelude.{◌≡◌, ◌≤◌, min, length};
ghost use Rattle.dossier.specs.Walk.{reach, top, chosen, checkpoint_group};

use crate::parts::{Claim, Opened};
use wire::records::{DigestValue, Sealed};

// How many of the claims reach up to the last with an epoch above 0.
fn reach_of(claims: &[Claim]) -> usize
    ensures exact { result ≡ reach 0 0 claims.now }
    ensures within { result ≤ length claims.now }
{
    claims
        .iter()
        .rposition(|c| c.epoch > 0)
        .map_or(0, |i| i + 1)
}

impl Opened {
    // The largest number with a held epoch above 0, or the base. A base this large no accepted
    // dossier has; there the answer stays at the largest that there is.
    pub fn top(&self) -> u64
        ensures exact { result ≡ min (top self.now) 18446744073709551615 }
        ensures low { self.now.base ≤ 1000000000000 → result ≡ top self.now }
    {
        self.base.saturating_add(reach_of(&self.claims) as u64)
    }

    // The digest chosen for a number, or None where it is free.
    pub fn chosen(&self, number: u64) -> Option<DigestValue>
        ensures { result ≡ chosen self.now number }
    {
        let above = number.checked_sub(self.base)?.checked_sub(1)?;
        let reached = &self.claims[..reach_of(&self.claims)];
        reached.get(above as usize).map(|c| c.digest)
    }

    // The checkpoints of the base in the dossier's records, none for base 0.
    pub fn checkpoints<'a>(&self, records: &'a [Sealed], q: usize) -> &'a [Sealed]
        ensures { result.now ≡ checkpoint_group q records.now self.now }
    {
        if self.base == 0 {
            return &[];
        }
        let rest = records.get(q..).unwrap_or(&[]);
        rest.get(..q).unwrap_or(rest)
    }
}
