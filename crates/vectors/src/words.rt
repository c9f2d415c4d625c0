// Digests as numbers, to be held against published ones.
ghost use Rattle.std.specs.Prelude.{◌≡◌, [], ◌∷◌};
ghost use Rattle.digest.specs.Words.{eight_at};

use digest::fnv::Fnv1a;
use digest::interface::Digest;
use digest::sha256::sha256;
use digest::truncated::Sha256;
use std::fmt;

// A digest that is published as N big-endian numbers of 64 bits, of which its value is the first.
pub trait Published<const N: usize>: Digest {
    fn name(&self) -> &'static str;

    fn words(&self, message: &[u8]) -> [u64; N];
}

// Numbers in hexadecimal, one after the other.
#[derive(Clone, Copy)]
pub struct Words<'a>(pub &'a [u64]);

impl fmt::Display for Words<'_> {
    fn fmt<W: fmt::Write>(&self, f: &mut fmt::Formatter<W>) -> fmt::Result {
        for word in self.0 {
            write!(f, "{word:016x}")?;
        }
        Ok(())
    }
}

impl Published<1> for Fnv1a {
    fn name(&self) -> &'static str {
        "FNV-1a 64"
    }

    fn words(&self, message: &[u8]) -> [u64; 1] {
        [self.digest(message).word]
    }
}

impl Published<4> for Sha256 {
    fn name(&self) -> &'static str {
        "SHA-256"
    }

    fn words(&self, message: &[u8]) -> [u64; 4] {
        four_words(&sha256(message))
    }
}

// The digest's bytes as four big-endian numbers.
fn four_words(digest: &[u8; 32]) -> [u64; 4]
    ensures { result ≡ eight_at digest.now 0 ∷ eight_at digest.now 8 ∷ eight_at digest.now 16 ∷ eight_at digest.now 24 ∷ [] }
{
    let (words, _) = digest.as_chunks::<8>();
    [
        u64::from_be_bytes(words[0]),
        u64::from_be_bytes(words[1]),
        u64::from_be_bytes(words[2]),
        u64::from_be_bytes(words[3]),
    ]
}
