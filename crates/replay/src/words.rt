// A line by its words, which stand apart by one space each.
ghost use Rattle.std.specs.Prelude.{◌≡◌, ok_or};
ghost use Rattle.replay.specs.Numbers.{number_in};

use crate::fault::{LineFault, Wrong};
use crate::frames::{bytes_in, list_in, read_list};
use crate::line::{Asked, Call, Line, Opening};
use application::interface::LAST_CLIENT;
use std::alloc::Global;
use std::str::from_utf8;
use text::numbers::number_in;
use wire::reading::{read_batch, read_sealed};

// A number of one or more digits, below 2^64.
fn number(word: &str) -> Result<u64, Wrong>
    ensures { result ≡ ok_or (number_in word.now) Wrong.Number }
{
    number_in(word).ok_or(Wrong::Number)
}

// One of the controllers of the house that is open, of which there are `members`.
fn controller(members: Option<usize>, word: &str) -> Result<usize, Wrong> {
    let i = number(word)?;
    let members = members.ok_or(Wrong::NoHouse)?;
    usize::try_from(i)
        .ok()
        .filter(|i| *i < members)
        .ok_or(Wrong::Controller)
}

fn client(word: &str) -> Result<u8, Wrong> {
    u8::try_from(number(word)?)
        .ok()
        .filter(|client| *client <= LAST_CLIENT)
        .ok_or(Wrong::Client)
}

fn opening(words: &[&str]) -> Result<Opening, Wrong> {
    let [n, application, digest] = words else {
        return Err(Wrong::Words);
    };
    Ok(Opening {
        n: u8::try_from(number(n)?).unwrap_or(u8::MAX),
        application: application.parse()?,
        digest: digest.parse()?,
    })
}

fn genuine(heap: Global, members: Option<usize>, words: &[&str]) -> Result<Asked, LineFault> {
    let [sealed] = words else {
        return Err(LineFault::Bad(Wrong::Words));
    };
    let sealed = bytes_in(heap, sealed)?;
    members.ok_or(Wrong::NoHouse)?;
    Ok(Asked::Genuine(read_sealed(sealed.as_slice())?))
}

fn offer(heap: Global, proposal: &str, batch: &str) -> Result<Call, LineFault> {
    let proposal = bytes_in(heap, proposal)?;
    let batch = bytes_in(heap, batch)?;
    let proposal = read_sealed(proposal.as_slice())?;
    Ok(Call::Offer(proposal, read_batch(batch.as_slice())?))
}

fn vote(heap: Global, vote: &str) -> Result<Call, LineFault> {
    let vote = bytes_in(heap, vote)?;
    Ok(Call::Vote(read_sealed(vote.as_slice())?))
}

fn supply(heap: Global, s: &str, batch: &str) -> Result<Call, LineFault> {
    let s = number(s)?;
    let batch = bytes_in(heap, batch)?;
    Ok(Call::Supply(s, read_batch(batch.as_slice())?))
}

fn prove(heap: Global, s: &str, batch: &str, commits: &[&str]) -> Result<Call, LineFault> {
    let s = number(s)?;
    let batch = bytes_in(heap, batch)?;
    let commits = list_in(heap, commits)?;
    let batch = read_batch(batch.as_slice())?;
    Ok(Call::Prove(s, batch, read_list(heap, commits.as_slice())?))
}

fn enter(heap: Global, new: &str, records: &[&str]) -> Result<Call, LineFault> {
    let new = bytes_in(heap, new)?;
    let records = list_in(heap, records)?;
    let new = read_sealed(new.as_slice())?;
    Ok(Call::Enter(new, read_list(heap, records.as_slice())?))
}

// The call that the words after the controller's number are of.
fn call(heap: Global, name: &str, words: &[&str]) -> Result<Call, LineFault> {
    match (name, words) {
        ("offer", [proposal, batch]) => offer(heap, proposal, batch),
        ("vote", [sealed]) => vote(heap, sealed),
        ("supply", [s, batch]) => supply(heap, s, batch),
        ("prove", [s, batch, commits @ ..]) => prove(heap, s, batch, commits),
        ("giveup", []) => Ok(Call::GiveUp),
        ("enter", [new, records @ ..]) => enter(heap, new, records),
        ("turn", []) => Ok(Call::Turn),
        _ => Err(LineFault::Bad(Wrong::Words)),
    }
}

// What is asked of one controller besides a call.
fn question(members: Option<usize>, name: &str, words: &[&str]) -> Result<Asked, Wrong> {
    match (name, words) {
        ("outbox", [i, places]) => Ok(Asked::Outbox(controller(members, i)?, number(places)?)),
        ("show", [i]) => Ok(Asked::Show(controller(members, i)?)),
        ("window", [i, c]) => Ok(Asked::Window(controller(members, i)?, client(c)?)),
        ("batch", [i, s]) => Ok(Asked::Batch(controller(members, i)?, number(s)?)),
        _ => Err(Wrong::Words),
    }
}

// The line of the words after its name.
fn line_of(
    heap: Global,
    members: Option<usize>,
    name: &str,
    words: &[&str],
) -> Result<Line, LineFault> {
    match name {
        "house" => Ok(Line::House(opening(words)?)),
        "genuine" => Ok(Line::Asked(genuine(heap, members, words)?)),
        "offer" | "vote" | "supply" | "prove" | "giveup" | "enter" | "turn" => {
            let [i, words @ ..] = words else {
                return Err(LineFault::Bad(Wrong::Words));
            };
            let i = controller(members, i)?;
            Ok(Line::Asked(Asked::Call(i, call(heap, name, words)?)))
        }
        "outbox" | "show" | "window" | "batch" => {
            Ok(Line::Asked(question(members, name, words)?))
        }
        _ => Err(LineFault::Bad(Wrong::NoOrder)),
    }
}

// A line that is not skipped, in a house of so many controllers, if one is open.
pub(crate) fn line_in(
    heap: Global,
    members: Option<usize>,
    bytes: &[u8],
) -> Result<Line, LineFault> {
    let text = from_utf8(bytes).map_err(|_| Wrong::NoText)?;
    let words: Vec<&str> = text.split(' ').collect(heap)?;
    match words.as_slice() {
        [name, words @ ..] => line_of(heap, members, name, words),
        [] => Err(LineFault::Bad(Wrong::NoOrder)),
    }
}
