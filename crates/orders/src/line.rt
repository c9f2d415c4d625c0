// What a line says.
ghost use Rattle.std.specs.Prelude.{◌≡◌};
ghost use Rattle.orders.specs.Lines.{request_of};

use crate::worded::Worded;
use std::alloc::{AllocError, Global};
use std::error::Error;
use std::fmt;
use std::str::from_utf8;
use text::numbers::number_in;
use wire::records::Request;

// What is wrong with a line.
#[derive(Clone, Copy, Debug, PartialEq, Eq)]
pub enum Wrong {
    NoText,
    NoOrder,
    Words,
    Client,
    Timestamp,
    Place,
    Amount,
    Degrees,
}

impl fmt::Display for Wrong {
    fn fmt<W: fmt::Write>(&self, f: &mut fmt::Formatter<W>) -> fmt::Result {
        f.write_str(match self {
            Wrong::NoText => "the line is not UTF-8 text",
            Wrong::NoOrder => "no such order",
            Wrong::Words => "words are missing or left over",
            Wrong::Client => "the client is no number from 0 to 255",
            Wrong::Timestamp => "the timestamp is no number from 0 to 4294967295",
            Wrong::Place => "a tank, valve or client is no number from 0 to 255",
            Wrong::Amount => "the amount is no number, or too large for an order",
            Wrong::Degrees => "the degrees are not as 12.50 or -0.50, or too large for an order",
        })
    }
}

impl Error for Wrong {}

// The order of a client, before any application has seen it; the seal is not looked at.
fn request_of(
    client: Option<u8>,
    timestamp: Option<u32>,
    payload: Result<u64, Wrong>,
) -> Result<Request, Wrong>
    ensures { result ≡ request_of client timestamp payload }
{
    Ok(Request {
        client: client.ok_or(Wrong::Client)?,
        timestamp: timestamp.ok_or(Wrong::Timestamp)?,
        payload: payload?,
        seal: 0,
    })
}

fn request_in<P: Worded>(words: &[&str]) -> Result<Request, Wrong> {
    match words {
        [client, timestamp, order @ ..] => request_of(
            number_in(client),
            number_in(timestamp),
            P::payload_in(order),
        ),
        _ => Err(Wrong::Words),
    }
}

// What is asked in a line, or what is wrong with it. Words stand apart by one space each.
pub(crate) fn line_in<P: Worded>(
    heap: Global,
    bytes: &[u8],
) -> Result<Result<Request, Wrong>, AllocError> {
    let Ok(text) = from_utf8(bytes) else {
        return Ok(Err(Wrong::NoText));
    };
    let words: Vec<&str> = text.split(' ').collect(heap)?;
    Ok(request_in::<P>(words.as_slice()))
}
