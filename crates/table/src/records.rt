// The records of the table. All are of fixed size and copied as a whole.
use wire::records::{Batch, DigestValue};

// What one controller voted for, and its seal.
#[derive(Clone, Copy)]
pub struct Ballot {
    pub digest: DigestValue,
    pub seal: u64,
}

// At most one ballot for each controller, by its number.
#[derive(Clone, Copy)]
pub struct Ballots {
    pub of: [Option<Ballot>; 16],
}

// A ballot with its signer.
#[derive(Clone, Copy)]
pub struct Vote {
    pub signer: u8,
    pub digest: DigestValue,
    pub seal: u64,
}

// Votes by ascending signers; past the count are zeros. A count beside the places, since this is copied as a whole,
// which the kit's `ArrayVec` is not.
#[derive(Clone, Copy)]
pub struct Votes {
    pub count: u8,
    pub list: [Vote; 16],
}

// The latest epoch and digest for which a quorum of prepares arrived, and those prepares.
#[derive(Clone, Copy)]
pub struct Certificate {
    pub epoch: u32,
    pub digest: DigestValue,
    pub prepares: Votes,
}

// What is kept of one number.
#[derive(Clone, Copy)]
pub struct Place {
    // the digest that it is filled with in this epoch
    pub proposal: Option<DigestValue>,
    // the batch of that digest, if it is known
    pub batch: Option<Batch>,
    pub prepares: Ballots,
    pub commits: Ballots,
    // outlives the epoch
    pub certificate: Option<Certificate>,
}

// The places of the 32 numbers after the stable number, and the checkpoints for its next two multiples of 16.
#[derive(Clone, Copy)]
pub struct Table {
    // the stable number
    pub stable: u64,
    // the quorum of checkpoints that made it stable; none at 0
    pub proof: Votes,
    // checkpoints for stable + 16 and stable + 32
    pub rows: [Ballots; 2],
    pub places: [Place; 32],
}
