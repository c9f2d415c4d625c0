// Digest values as numbers, and the statement that a client seals.
ghost use Rattle.std.specs.Prelude.{◌≡◌};
ghost use Rattle.wire.specs.Values.{value_of, number_of, request_statement};

use crate::kinds::Kind;
use crate::records::{DigestValue, Request, Statement};

// The value that stands for a payload, a mark or a leader set.
impl From<u64> for DigestValue {
    ghost from_gives = { λ number value. value ≡ value_of number };

    fn from(number: u64) -> DigestValue {
        DigestValue { word: number }
    }
}

impl DigestValue {
    // The number that a value stands for. A method, since it is read where a value is looked into, and no
    // conversion of the whole.
    pub fn number(&self) -> u64
        ensures { result ≡ number_of self.now }
    {
        let DigestValue { word } = *self;
        word
    }
}

impl Request {
    // What the client seals.
    pub fn statement(&self) -> Statement
        ensures { result ≡ request_statement self.now }
    {
        Statement {
            kind: Kind::Request,
            signer: self.client,
            epoch: 0,
            number: u64::from(self.timestamp),
            held: 0,
            digest: DigestValue::from(self.payload),
        }
    }
}
