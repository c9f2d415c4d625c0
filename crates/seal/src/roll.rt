// The roll: the sealed statements that the host found genuine.
ghost use Rattle.std.specs.Prelude.{◌≡◌, [], ◌∷◌, ◌++◌, is_ok, if◌then◌else◌, vec_len};
ghost use Rattle.seal.specs.Roll.{listed, matches};

use crate::checker::SealChecker;
use std::alloc::{AllocError, Global};
use wire::records::{Sealed, Statement};

#[tactic(auto, unfolding(wire::specs::Values::same_digest))]
fn is_entry(entry: &Sealed, st: &Statement, seal: u64) -> bool
    ensures { result ≡ matches entry.now st.now seal }
{
    entry.seal == seal && entry.statement == *st
}

// Whether one of the entries is that statement under that seal. The only look into a roll.
fn contains(entries: &[Sealed], st: &Statement, seal: u64) -> bool
    ensures { result ≡ listed entries.now st.now seal }
{
    for entry in entries {
        if is_entry(entry, st, seal) {
            return true;
        }
    }
    false
}

#[derive(Drop)]
pub struct Roll {
    entries: Vec<Sealed>,
}

impl Roll {
    pub fn new(heap: Global) -> Roll
        ensures { result.entries.items ≡ [] }
    {
        Roll {
            entries: Vec::new(heap),
        }
    }

    // One entry more, after the others; none where there is no memory for it.
    pub fn add(&mut self, entry: Sealed) -> Result<(), AllocError>
        ensures { self.new.entries.items ≡ (if is_ok result then self.old.entries.items ++ entry ∷ [] else self.old.entries.items) }
    {
        self.entries.push(entry)?;
        Ok(())
    }

    pub fn len(&self) -> usize
        ensures { result ≡ vec_len self.now.entries }
    {
        self.entries.len()
    }
}

impl SealChecker for Roll {
    ghost accepts = { λ roll st seal. listed roll.entries.items st seal };

    fn genuine(&self, st: &Statement, seal: u64) -> bool {
        contains(self.entries.as_slice(), st, seal)
    }
}
