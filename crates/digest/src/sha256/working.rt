// The eight working variables of a block's rounds (FIPS 180-4, 6.2.2, steps 2 to 4).
ghost use Rattle.std.specs.Prelude.{◌≡◌};
ghost use Rattle.digest.specs.Sha256.{working, round, added};

use crate::sha256::words::*;

#[derive(Clone, Copy)]
pub(crate) struct Working {
    pub a: u32,
    pub b: u32,
    pub c: u32,
    pub d: u32,
    pub e: u32,
    pub f: u32,
    pub g: u32,
    pub h: u32,
}

impl Working {
    // Step 2: they start as the hash value.
    pub(crate) fn start(hash: &[u32; 8]) -> Self
        ensures { result ≡ working hash.now }
    {
        let [a, b, c, d, e, f, g, h] = *hash;
        Working {
            a,
            b,
            c,
            d,
            e,
            f,
            g,
            h,
        }
    }

    // Step 3: one round.
    pub(crate) fn round(self, k: u32, w: u32) -> Self
        ensures { result ≡ round self k w }
    {
        let t1 = self
            .h
            .wrapping_add(big_sigma1(self.e))
            .wrapping_add(choose(self.e, self.f, self.g))
            .wrapping_add(k)
            .wrapping_add(w);
        let t2 = big_sigma0(self.a).wrapping_add(majority(self.a, self.b, self.c));
        Working {
            a: t1.wrapping_add(t2),
            b: self.a,
            c: self.b,
            d: self.c,
            e: self.d.wrapping_add(t1),
            f: self.e,
            g: self.f,
            h: self.g,
        }
    }

    // Step 4: the next hash value.
    pub(crate) fn added_to(self, hash: &[u32; 8]) -> [u32; 8]
        ensures { result ≡ added hash.now self }
    {
        [
            self.a.wrapping_add(hash[0]),
            self.b.wrapping_add(hash[1]),
            self.c.wrapping_add(hash[2]),
            self.d.wrapping_add(hash[3]),
            self.e.wrapping_add(hash[4]),
            self.f.wrapping_add(hash[5]),
            self.g.wrapping_add(hash[6]),
            self.h.wrapping_add(hash[7]),
        ]
    }
}
