// How an application answers an order: it carries it out, or says why not.
ghost use Rattle.std.specs.Prelude.{◌≡◌, Some};
ghost use Rattle.application.specs.Codes.{answer_code, Decodes};
ghost use Rattle.application.specs.Texts.{reject_text, no_reject_text};

use std::error::Error;
use std::fmt;

// The code of an order that is carried out; a number, since that is no reject.
pub const DONE: u8 = 0;

// Why an order is not carried out, each with its code. They are tried in this order, and any of them changes nothing.
#[derive(Clone, Copy, Debug, PartialEq, Eq, Hash)]
pub enum Reject {
    // no such order, or a byte that the order does not use is not 0
    Unknown = 1,
    // a place that does not exist, the same place twice, or no such client
    BadPlace = 2,
    // a value to set is out of range
    BadValue = 3,
    // too little to take, or too full to add
    BadAmount = 4,
}

impl fmt::Display for Reject {
    ghost output = { λ reject. Some (reject_text reject) };

    fn fmt<W: fmt::Write>(&self, f: &mut fmt::Formatter<W>) -> fmt::Result {
        f.write_str(match self {
            Reject::Unknown => "no such order",
            Reject::BadPlace => "no such place, or the same place twice",
            Reject::BadValue => "a value out of range",
            Reject::BadAmount => "too little to take, or too full to add",
        })
    }
}

impl Error for Reject {}

// The code of an answer.
pub fn answer_code(answer: Result<(), Reject>) -> u8
    ensures { result ≡ answer_code answer }
{
    match answer {
        Ok(()) => DONE,
        Err(reject) => reject as u8,
    }
}

// A code that no reject has.
#[derive(Clone, Copy, Debug, PartialEq, Eq, Hash)]
pub struct NoReject(pub u8);

impl fmt::Display for NoReject {
    ghost output = { λ code. Some (no_reject_text code) };

    fn fmt<W: fmt::Write>(&self, f: &mut fmt::Formatter<W>) -> fmt::Result {
        write!(f, "no reject has code {}", self.0)
    }
}

impl Error for NoReject {}

impl TryFrom<u8> for Reject {
    type Error = NoReject;

    ghost try_from_gives = { Decodes };

    fn try_from(code: u8) -> Result<Self, NoReject> {
        match code {
            1 => Ok(Reject::Unknown),
            2 => Ok(Reject::BadPlace),
            3 => Ok(Reject::BadValue),
            4 => Ok(Reject::BadAmount),
            _ => Err(NoReject(code)),
        }
    }
}
