// Why a line is not carried out.
ghost use Rattle.std.specs.Prelude.{◌≡◌};
ghost use Rattle.protocol.specs.declared.refusal.Refusal.TheVariants.{Frame};
ghost use Rattle.replay.specs.declared.fault.LineFault.TheVariants.{Refused, Bad};

use house::opening::OpenFault;
use protocol::refusal::Refusal;
use std::alloc::AllocError;
use std::error::Error;
use std::fmt;
use text::fault::HexFault;
use wire::faults::FrameFault;

// What is wrong with a line that has none of the known forms.
#[derive(Clone, Copy, Debug, PartialEq, Eq)]
pub enum Wrong {
    NoText,
    NoOrder,
    Words,
    Application,
    Digest,
    NoHouse,
    Controller,
    Number,
    Client,
    Hex,
    Outside,
    Memory,
}

impl fmt::Display for Wrong {
    fn fmt<W: fmt::Write>(&self, f: &mut fmt::Formatter<W>) -> fmt::Result {
        f.write_str(match self {
            Wrong::NoText => "not UTF-8 text",
            Wrong::NoOrder => "no such order",
            Wrong::Words => "words are missing or left over",
            Wrong::Application => "the application is neither tanks nor valves",
            Wrong::Digest => "the digest is neither fnv nor sha256",
            Wrong::NoHouse => "no house is open",
            Wrong::Controller => "no such controller",
            Wrong::Number => "a number is not decimal or too large",
            Wrong::Client => "no such client",
            Wrong::Hex => "a frame is not lowercase hexadecimal",
            Wrong::Outside => "the number has no place in the table",
            Wrong::Memory => "no memory for it",
        })
    }
}

impl Error for Wrong {}

#[derive(Clone, Copy, Debug, PartialEq, Eq)]
pub enum LineFault {
    // a house or a call is refused, or a word is hexadecimal and not the frame that is asked for
    Refused(Refusal),
    Bad(Wrong),
}

impl fmt::Display for LineFault {
    fn fmt<W: fmt::Write>(&self, f: &mut fmt::Formatter<W>) -> fmt::Result {
        match self {
            LineFault::Refused(refusal) => write!(f, "refused {refusal}"),
            LineFault::Bad(wrong) => write!(f, "bad line: {wrong}"),
        }
    }
}

impl Error for LineFault {}

impl From<Refusal> for LineFault {
    ghost from_gives = { λ e r. r ≡ Refused e };

    fn from(refusal: Refusal) -> LineFault {
        LineFault::Refused(refusal)
    }
}

impl From<FrameFault> for LineFault {
    ghost from_gives = { λ f r. r ≡ Refused (Frame f) };

    fn from(fault: FrameFault) -> LineFault {
        LineFault::Refused(Refusal::Frame(fault))
    }
}

impl From<Wrong> for LineFault {
    ghost from_gives = { λ w r. r ≡ Bad w };

    fn from(wrong: Wrong) -> LineFault {
        LineFault::Bad(wrong)
    }
}

impl From<HexFault> for LineFault {
    fn from(fault: HexFault) -> LineFault {
        LineFault::Bad(match fault {
            HexFault::Memory => Wrong::Memory,
            HexFault::Digit(_) | HexFault::Odd(_) => Wrong::Hex,
        })
    }
}

impl From<OpenFault> for LineFault {
    fn from(fault: OpenFault) -> LineFault {
        match fault {
            OpenFault::Refused(refusal) => LineFault::Refused(refusal),
            OpenFault::Memory => LineFault::Bad(Wrong::Memory),
        }
    }
}

impl From<AllocError> for LineFault {
    fn from(_: AllocError) -> LineFault {
        LineFault::Bad(Wrong::Memory)
    }
}
