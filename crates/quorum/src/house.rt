// A house: how many controllers it has, and which of them this one is.
ghost use Rattle.std.specs.Prelude.{◌≡◌, ◌<◌, ◌≤◌, true, false, MatchResult, Some};
ghost use Rattle.quorum.specs.Sizes.{allowed, faults, quorum, no_house, Sizes};
ghost use Rattle.quorum.specs.Texts.{bad_house_text};

use std::error::Error;
use std::fmt;

// That n is at most 16 follows from its being allowed; it stands here so that whoever holds a house
// knows it.
#[derive(Clone, Copy)]
pub struct House {
    n: u8,
    own: u8,
    ghost sized: { allowed n ≡ true },
    ghost few: { n ≤ 16 },
    ghost placed: { own < n },
}

// What a count of different signers is held against: how many controllers there are, and how many of
// them are a quorum.
#[derive(Clone, Copy, Debug, PartialEq, Eq)]
pub struct Threshold {
    pub n: u8,
    pub q: usize,
}

// There is no house of this size, or it has no controller of this number.
#[derive(Clone, Copy, Debug, PartialEq, Eq)]
pub struct BadHouse {
    pub n: u8,
    pub own: u8,
}

impl fmt::Display for BadHouse {
    ghost output = { λ e. Some (bad_house_text e) };

    fn fmt<W: fmt::Write>(&self, f: &mut fmt::Formatter<W>) -> fmt::Result {
        let BadHouse { n, own } = self;
        write!(f, "no house of {n} controllers has a number {own}")
    }
}

impl Error for BadHouse {}

#[tactic(auto, using(std::proofs::lemmas::Bool::Decides::nat_tests), unfolding(crate::specs::Sizes::allowed))]
fn is_allowed(n: u8) -> bool
    ensures { result ≡ allowed n }
{
    matches!(n, 4 | 7 | 10 | 13 | 16)
}

impl House {
    // Refused exactly where the size is not allowed or the number is not below it.
    pub fn new(n: u8, own: u8) -> Result<House, BadHouse>
        ensures { MatchResult result (λ h. (no_house n own ≡ false) × (h.n ≡ n) × (h.own ≡ own)) (λ e. (no_house n own ≡ true) × (e.n ≡ n) × (e.own ≡ own)) }
    {
        if !is_allowed(n) || own >= n {
            return Err(BadHouse { n, own });
        }
        Ok(House { n, own })
    }

    pub fn n(&self) -> u8
        ensures { result ≡ self.now.n }
    {
        self.n
    }

    pub fn own(&self) -> u8
        ensures { result ≡ self.now.own }
    {
        self.own
    }

    // How many controllers may lie.
    #[tactic(auto, using(crate::proofs::Allowed::sizes), unfolding(crate::specs::Sizes::faults))]
    pub fn faults(&self) -> usize
        ensures exact { result ≡ faults self.now.n }
        ensures sizes { Sizes self.now.n }
    {
        usize::from((self.n - 1) / 3)
    }

    // How many different controllers are a quorum.
    #[tactic(auto, unfolding(crate::specs::Sizes::faults, crate::specs::Sizes::quorum))]
    pub fn quorum(&self) -> usize
        ensures exact { result ≡ quorum self.now.n }
        ensures sizes { Sizes self.now.n }
    {
        2 * self.faults() + 1
    }

    pub fn threshold(&self) -> Threshold
        ensures { result ≡ record { n = self.now.n; q = quorum self.now.n } }
    {
        Threshold {
            n: self.n,
            q: self.quorum(),
        }
    }
}
