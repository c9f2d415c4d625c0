// SHA-256 as a digest of 64 bits: the leftmost bits of the message digest, as the standard truncates one.
ghost use Rattle.digest.specs.Words.{eight_at};
ghost use Rattle.digest.specs.Sha256.{sha256 as hashed};

use crate::interface::Digest;
use crate::sha256::sha256;
use wire::records::DigestValue;

#[derive(Clone, Copy)]
pub struct Sha256;

impl Digest for Sha256 {
    ghost value = { λ _ bytes. record { word = eight_at (hashed bytes) 0 } };

    fn digest(&self, bytes: &[u8]) -> DigestValue {
        let [a, b, c, d, e, f, g, h, ..] = sha256(bytes);
        DigestValue {
            word: u64::from_be_bytes([a, b, c, d, e, f, g, h]),
        }
    }
}
