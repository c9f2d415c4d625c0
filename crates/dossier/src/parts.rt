// What a dossier is judged by, and what an accepted one says.
use quorum::house::Threshold;
use wire::records::DigestValue;

// The largest number there is: none above it is proposed, proved or made stable, and no dossier with a base above
// it is accepted.
pub const LAST: u64 = 1_000_000_000_000;

// What a count of signers is held against, and the new epoch.
#[derive(Clone, Copy)]
pub struct Terms {
    pub threshold: Threshold,
    pub epoch: u32,
}

// The highest held epoch of a number and its digest; epoch 0 where nobody holds one. No Option
// says that: frames have that 0 too, epochs are compared with it, and it comes with digest 0.
#[derive(Clone, Copy)]
pub struct Claim {
    pub epoch: u32,
    pub digest: DigestValue,
}

pub(crate) const NO_CLAIM: Claim = Claim {
    epoch: 0,
    digest: DigestValue { word: 0 },
};

// The base h, the mark of its checkpoints (0 where h is 0) and the claims of h + 1 to h + 32. The
// mark is no Option: base 0 says already that there is none.
#[derive(Clone, Copy)]
pub struct Opened {
    pub base: u64,
    pub mark: DigestValue,
    pub claims: [Claim; 32],
}
