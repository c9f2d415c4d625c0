// FNV-1a of 64 bits.
ghost use Rattle.std.specs.Prelude.{◌≡◌, []};
ghost use Rattle.digest.specs.Fnv.{mix, fnv_from, fnv1a};

use crate::interface::Digest;
use wire::records::DigestValue;

const OFFSET_BASIS: u64 = 0xcbf2_9ce4_8422_2325;

const PRIME: u64 = 0x100_0000_01b3;

// One byte more.
pub fn absorb(hash: u64, byte: u8) -> u64
    ensures { result ≡ mix hash byte }
{
    (hash ^ u64::from(byte)).wrapping_mul(PRIME)
}

// Bytes more, in order.
pub fn absorb_all(hash: u64, bytes: &[u8]) -> u64
    ensures { result ≡ fnv_from hash bytes.now }
{
    let mut h = hash;
    for b in bytes {
        h = absorb(h, *b);
    }
    h
}

// The hash of no bytes, from which all start.
pub fn offset_basis() -> u64
    ensures { result ≡ fnv1a [] }
{
    OFFSET_BASIS
}

#[derive(Clone, Copy)]
pub struct Fnv1a;

impl Digest for Fnv1a {
    ghost value = { λ _ bytes. record { word = fnv1a bytes } };

    fn digest(&self, bytes: &[u8]) -> DigestValue {
        DigestValue {
            word: absorb_all(OFFSET_BASIS, bytes),
        }
    }
}
