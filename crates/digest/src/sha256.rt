// SHA-256 (FIPS 180-4): a message's blocks straight from the slice, then one or two blocks of padding.
ghost use Rattle.std.specs.Prelude.{◌≡◌, ◌+◌, ◌<◌, ◌≤◌, ◌++◌, length, fold};
ghost use Rattle.std.specs.List.{flat_map};
ghost use Rattle.digest.specs.Words.{bytes4, put_over};
ghost use Rattle.digest.specs.Sha256.{blocks as blocked, padding, compressed, sha256 as hashed};

mod compress;
mod constants;
mod words;
mod working;

use crate::sha256::compress::compress;
use crate::sha256::constants::INITIAL;

// Writes `bytes` over what stands in `dest` from `at` on. `wire` keeps one like it to itself: in public it could ask nothing of its callers.
fn put(dest: &mut [u8], at: usize, bytes: &[u8])
    requires { at + length bytes.now ≤ length dest.old }
    ensures { dest.new ≡ put_over dest.old at bytes.now }
{
    dest[at..at + bytes.len()].copy_from_slice(bytes);
}

// The one or two blocks that hold what is left of the message, the bit 1, zeros and the length.
fn finish(hash: &[u32; 8], rest: &[u8], bits: u64) -> [u32; 8]
    requires { length rest.now < 64 }
    ensures { result ≡ fold compressed hash.now (blocked (rest.now ++ padding (length rest.now) bits)) }
{
    let mut block = [0; 64];
    put(&mut block, 0, rest);
    block[rest.len()] = 0x80;
    if rest.len() < 56 {
        put(&mut block, 56, &bits.to_be_bytes());
        return compress(hash, &block);
    }
    let mut last = [0; 64];
    put(&mut last, 56, &bits.to_be_bytes());
    compress(&compress(hash, &block), &last)
}

fn bytes_of(hash: &[u32; 8]) -> [u8; 32]
    ensures { result ≡ flat_map bytes4 hash.now }
{
    let mut out = [0; 32];
    for (i, word) in hash.iter().enumerate() {
        put(&mut out, i * 4, &word.to_be_bytes());
    }
    out
}

pub fn sha256(message: &[u8]) -> [u8; 32]
    ensures { result ≡ hashed message.now }
{
    let (blocks, rest) = message.as_chunks::<64>();
    let mut hash = INITIAL;
    for block in blocks {
        hash = compress(&hash, block);
    }
    let bits = (message.len() as u64).wrapping_mul(8);
    bytes_of(&finish(&hash, rest, bits))
}
