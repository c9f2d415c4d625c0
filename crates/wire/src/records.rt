// The records that are sent and kept.
use crate::kinds::Kind;

// A digest, or a number that stands in a digest's place: a payload, a mark, a leader set.
#[derive(Clone, Copy, Debug, PartialEq, Eq)]
pub struct DigestValue {
    pub word: u64,
}

// What a controller or a client says. A field that its kind does not use is 0.
#[derive(Clone, Copy, PartialEq, Eq, Debug)]
pub struct Statement {
    pub kind: Kind,
    pub signer: u8,
    pub epoch: u32,
    pub number: u64,
    // the epoch of a held certificate, 0 for none
    pub held: u32,
    pub digest: DigestValue,
}

// A statement under its signer's seal.
#[derive(Clone, Copy, PartialEq, Eq, Debug)]
pub struct Sealed {
    pub statement: Statement,
    pub seal: u64,
}

// A client's order, under the client's seal.
#[derive(Clone, Copy, PartialEq, Eq, Debug)]
pub struct Request {
    pub client: u8,
    pub timestamp: u32,
    pub payload: u64,
    pub seal: u64,
}

// A batch of at most 16 requests; the places past its count hold zeros. A count beside places, and no `Vec`:
// a call allocates nothing, and a batch is copied as a whole.
#[derive(Clone, Copy)]
pub struct Batch {
    pub count: u8,
    pub requests: [Request; 16],
}
