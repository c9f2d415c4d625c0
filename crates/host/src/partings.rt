// A parting: what one controller sent on giving up, sealed. Its stable statement, its 32 held
// statements, then the evidence that it forwarded. Nothing is taken for granted of it.
ghost use Rattle.std.specs.Prelude.{◌≡◌, ℕ, map, vec_items, slice_get};
ghost use Rattle.std.specs.Fn.{FnReturnsAt};
ghost use Rattle.host.specs.Partings.{stable_in, held_in, claimed_epoch, highest};

use wire::records::Sealed;

// The stable number of a parting, 0 where nothing is in it.
pub(crate) fn stable_in(parting: &[Sealed]) -> u64
    ensures { result ≡ stable_in parting.now }
{
    parting.first().map_or(0, |r| r.statement.number)
}

// The held statement of a parting for s, if s is one of its 32 numbers and the statement is there.
pub(crate) fn held_in(parting: &[Sealed], s: u64) -> Option<Sealed>
    ensures { result ≡ slice_get (held_in s parting.now) 0 }
{
    let place = s.checked_sub(stable_in(parting))?;
    if !(1..=32).contains(&place) {
        return None;
    }
    parting.get(place as usize).copied()
}

// The epoch that a parting claims for s, 0 where it claims none.
fn claimed_epoch(parting: &[Sealed], s: u64) -> u32
    ensures { result ≡ claimed_epoch s parting.now }
{
    held_in(parting, s).map_or(0, |r| r.statement.held)
}

// The first of the partings with the highest number under a key, none where all numbers are 0.
fn highest<F: Fn(&[Sealed]) -> u64>(partings: &[Vec<Sealed>], key: F) -> &[Sealed]
    requires { F.IsAlwaysCallable key }
    ensures { (k : _ → ℕ) → ((p : _) (n : ℕ) → FnReturnsAt F.Fn key p n → n ≡ k p) → result.now ≡ highest k (map vec_items partings.now) }
{
    let mut best: &[Sealed] = &[];
    for p in partings {
        if key(best) < key(p.as_slice()) {
            best = p.as_slice();
        }
    }
    best
}

// The first of the partings with the largest stable number, none where all are 0.
pub(crate) fn latest(partings: &[Vec<Sealed>]) -> &[Sealed]
    ensures { result.now ≡ highest stable_in (map vec_items partings.now) }
{
    highest(partings, stable_in)
}

// The first of the partings that claims the highest epoch for s, none where nothing is held.
pub(crate) fn claimant(partings: &[Vec<Sealed>], s: u64) -> &[Sealed]
    ensures { result.now ≡ highest (claimed_epoch s) (map vec_items partings.now) }
{
    highest(partings, |p| u64::from(claimed_epoch(p, s)))
}
