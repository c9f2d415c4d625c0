// Why a text is no hexadecimal.
ghost use Rattle.std.specs.Prelude.{◌≡◌, Some};
ghost use Rattle.text.specs.Texts.{fault_text};
ghost use Rattle.text.specs.declared.fault.HexFault.TheVariants.{Memory};

use std::alloc::AllocError;
use std::error::Error;
use std::fmt;

#[derive(Clone, Copy, Debug, PartialEq, Eq, Hash)]
pub enum HexFault {
    // the place of the first character that is none of 0 to 9 and a to f
    Digit(usize),
    // an odd number of digits
    Odd(usize),
    // no memory for the bytes
    Memory,
}

impl fmt::Display for HexFault {
    ghost output = { λ fault. Some (fault_text fault) };

    fn fmt<W: fmt::Write>(&self, f: &mut fmt::Formatter<W>) -> fmt::Result {
        match self {
            HexFault::Digit(place) => write!(
                f,
                "not hexadecimal: character {place} is none of 0-9 and a-f"
            ),
            HexFault::Odd(count) => write!(f, "not hexadecimal: {count} digits, an odd number"),
            HexFault::Memory => f.write_str("not read: no memory"),
        }
    }
}

impl Error for HexFault {}

impl From<AllocError> for HexFault {
    ghost from_gives = { λ _ r. r ≡ Memory };

    fn from(_: AllocError) -> HexFault {
        Self::Memory
    }
}
