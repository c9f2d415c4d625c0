// The hash computation of one block (FIPS 180-4, 6.2.2), its steps in the standard's order.
ghost use Rattle.std.specs.Prelude.{◌≡◌, ◌<◌};
ghost use Rattle.digest.specs.Sha256.{schedule_word, schedule, rounds, compressed};

use crate::sha256::constants::K;
use crate::sha256::words::*;
use crate::sha256::working::Working;

fn schedule_word(block: &[u8; 64], w: &[u32; 64], t: usize) -> u32
    requires { t < 64 }
    ensures { result ≡ schedule_word block.now w.now t }
{
    if t < 16 {
        return word_at(block, t * 4);
    }
    small_sigma1(w[t - 2])
        .wrapping_add(w[t - 7])
        .wrapping_add(small_sigma0(w[t - 15]))
        .wrapping_add(w[t - 16])
}

fn message_schedule(block: &[u8; 64]) -> [u32; 64]
    ensures { result ≡ schedule 64 block.now }
{
    let mut w = [0; 64];
    // by index: a word is made of four that stand before it
    for t in 0..64 {
        w[t] = schedule_word(block, &w, t);
    }
    w
}

fn all_rounds(w: &[u32; 64], start: Working) -> Working
    ensures { result ≡ rounds 64 w.now start }
{
    let mut v = start;
    for (t, word) in w.iter().enumerate() {
        v = v.round(K[t], *word);
    }
    v
}

pub(crate) fn compress(hash: &[u32; 8], block: &[u8; 64]) -> [u32; 8]
    ensures { result ≡ compressed hash.now block.now }
{
    let w = message_schedule(block);
    let start = Working::start(hash);
    let end = all_rounds(&w, start);
    end.added_to(hash)
}
