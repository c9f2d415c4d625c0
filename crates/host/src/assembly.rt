// A dossier out of the partings of q controllers.
ghost use Rattle.std.specs.Prelude.{◌≡◌, ◌≤◌, ◌++◌, map, IfOk, vec_items, OnOk};
ghost use Rattle.host.specs.Assembly.{base_in, at_number, at_numbers, assembled};

use crate::evidence::{is_checkpoint, is_prepare};
use crate::partings::{claimant, held_in, latest, stable_in};
use dossier::parts::LAST;
use std::alloc::{AllocError, Global};
use wire::records::Sealed;

// The base of the dossier: the largest stable number.
pub fn base_of(partings: &[Vec<Sealed>]) -> u64
    ensures { result ≡ base_in (map vec_items partings.now) }
{
    stable_in(latest(partings))
}

// The held statements for s, and the prepares for the highest claim.
fn add_number(out: &mut Vec<Sealed>, partings: &[Vec<Sealed>], s: u64) -> Result<(), AllocError>
    ensures { OnOk result (out.new.items ≡ out.old.items ++ at_number (map vec_items partings.now) s) }
{
    out.extend(partings.iter().filter_map(|p| held_in(p.as_slice(), s)))?;
    let best = claimant(partings, s);
    if let Some(claim) = held_in(best, s) {
        out.extend(
            best.iter()
                .copied()
                .filter(|r| is_prepare(r, s, &claim.statement)),
        )?;
    }
    Ok(())
}

// The 32 numbers above the base.
#[tactic(auto, using(crate::proofs::Turns::numbers_turn), unfolding(crate::specs::Assembly::at_numbers))]
fn add_numbers(out: &mut Vec<Sealed>, partings: &[Vec<Sealed>], base: u64) -> Result<(), AllocError>
    ensures { OnOk result (out.new.items ≡ out.old.items ++ at_numbers (map vec_items partings.now) base) }
{
    if base > LAST {
        return Ok(());
    }
    // numbers of the log, not indexes
    for s in base + 1..=base + 32 {
        add_number(out, partings, s)?;
    }
    Ok(())
}

// The dossier's records in order, from the partings of the q controllers that are to speak in it, by
// ascending signers. Short or lying partings give some list, which the controllers refuse.
pub fn assemble(heap: Global, partings: &[Vec<Sealed>]) -> Result<Vec<Sealed>, AllocError>
    ensures { IfOk result (λ v. v.items ≡ assembled (map vec_items partings.now)) }
{
    let mut out = Vec::new(heap);
    out.extend(partings.iter().filter_map(|p| p.first().copied()))?;
    let best = latest(partings);
    let base = stable_in(best);
    out.extend(best.iter().copied().filter(|r| is_checkpoint(r, base)))?;
    add_numbers(&mut out, partings, base)?;
    Ok(out)
}
