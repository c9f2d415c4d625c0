// The published vectors of FNV-1a 64 and SHA-256, beside what the digests give for them.
#![tactic(auto)]

ghost use Rattle.std.specs.Prelude.{◌≤◌, length, IfOk};

mod published;
mod words;

use digest::fnv::Fnv1a;
use digest::truncated::Sha256;
use published::{FNV, SHA256, Vector};
use words::{Published, Words};

// Whether the message has the digest that is published.
fn compare<const N: usize, D: Published<N>>(
    rt: &HostRuntime,
    digest: &D,
    vector: &Vector<N>,
) -> anyhow::Result<bool> {
    let repeated = vector.message.repeated(rt.alloc())?;
    let text = repeated
        .as_ref()
        .map_or(vector.message.part(), |text| text.as_str());
    let message = text.as_bytes();
    let found = digest.words(message);
    let same = found == vector.digest && found.first() == Some(&digest.digest(message).word);
    println!(rt;
        "{} of {}: {} {}",
        digest.name(),
        vector.message,
        Words(&found),
        if same { "as published" } else { "WRONG" }
    )?;
    Ok(same)
}

// How many of the vectors are as published.
fn compare_all<const N: usize, D: Published<N>>(
    rt: &HostRuntime,
    digest: &D,
    vectors: &[Vector<N>],
) -> anyhow::Result<usize>
    ensures { IfOk result (λ same. same ≤ length vectors.now) }
{
    let mut same = 0usize;
    for vector in vectors {
        if compare(rt, digest, vector)? {
            same += 1;
        }
    }
    Ok(same)
}

fn run(rt: &HostRuntime) -> anyhow::Result<()> {
    let same = compare_all(rt, &Fnv1a, &FNV)? + compare_all(rt, &Sha256, &SHA256)?;
    println!(rt; "{same} of {} as published", FNV.len() + SHA256.len())?;
    Ok(())
}

fn main(rt: HostRuntime) -> anyhow::Result<()> {
    run(&rt)
}
