// Why a call is refused. A refused call changes nothing.
ghost use Rattle.std.specs.Prelude.{◌≡◌, Some};
ghost use Rattle.protocol.specs.Refusals.{refusal_number, refusal_text};

use std::error::Error;
use std::fmt;
use wire::faults::FrameFault;

#[derive(Clone, Copy, PartialEq, Eq, Debug)]
pub enum Refusal {
    // no house has so many controllers, or none of that number
    House,
    // the outbox has fewer than 400 places
    Room,
    // not a frame
    Frame(FrameFault),
    // a signer that is no controller, or a client above 31
    Signer,
    // a kind that the call does not take, an unused field that is not 0, a timestamp out of range
    Kind,
    // the epoch is changing, or is another
    Epoch,
    // a number that the call does not take
    Number,
    // not the owner or the primary, or a leader set without its signer or with no controller
    Authority,
    // the checker says no
    Seal,
    // a proposal or this signer's vote stands
    Standing,
    // no proposal, another digest, or the batch is known
    Unproposed,
    // more than 16 requests, another digest, or requests whose digest is 0
    Batch,
    // the index of the first bad request
    Request(usize),
    // the index of the first record at fault, missing or surplus
    Record(usize),
    // changing, no last number, or not delivered up to it
    Unfinished,
    // there is no higher epoch
    LastEpoch,
}

impl Refusal {
    // A method, and no `From`: a number is read off a refusal, and none is made of one.
    pub fn number(&self) -> u8
        ensures { result ≡ refusal_number self.now }
    {
        match *self {
            Refusal::House => 1,
            Refusal::Room => 2,
            Refusal::Frame(_) => 3,
            Refusal::Signer => 4,
            Refusal::Kind => 5,
            Refusal::Epoch => 6,
            Refusal::Number => 7,
            Refusal::Authority => 8,
            Refusal::Seal => 9,
            Refusal::Standing => 10,
            Refusal::Unproposed => 11,
            Refusal::Batch => 12,
            Refusal::Request(_) => 13,
            Refusal::Record(_) => 14,
            Refusal::Unfinished => 15,
            Refusal::LastEpoch => 16,
        }
    }
}

// The number, and where the fault is.
impl fmt::Display for Refusal {
    ghost output = { λ r. Some (refusal_text r) };

    fn fmt<W: fmt::Write>(&self, f: &mut fmt::Formatter<W>) -> fmt::Result {
        let number = self.number();
        match *self {
            Refusal::Frame(fault) => {
                let place = fault.place;
                write!(f, "{number} place {place}")
            }
            Refusal::Request(at) | Refusal::Record(at) => write!(f, "{number} at {at}"),
            _ => write!(f, "{number}"),
        }
    }
}

impl Error for Refusal {}
