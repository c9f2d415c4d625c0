// Degrees as they are written in words.
ghost use Rattle.std.specs.Prelude.{◌≡◌, pos};
ghost use Rattle.std.specs.Option.{option_map};
ghost use Rattle.orders.specs.Numbers.{number_in, hundredths, hundredths_in, degrees_in};

use std::fmt;
use text::numbers::number_in;

// Hundredths of a degree.
#[derive(Clone, Copy, Debug, PartialEq, Eq)]
pub struct Degrees(pub i16);

impl fmt::Display for Degrees {
    fn fmt<W: fmt::Write>(&self, f: &mut fmt::Formatter<W>) -> fmt::Result {
        let sign = if self.0 < 0 { "-" } else { "" };
        let size = self.0.unsigned_abs();
        write!(f, "{sign}{}.{:02}", size / 100, size % 100)
    }
}

// A number below 2^32.
fn whole_in(word: &str) -> Option<u32>
    ensures { result ≡ number_in word.now }
{
    number_in(word)
}

fn hundredths(whole: Option<u32>, part: Option<u32>) -> Option<i64>
    ensures { result ≡ option_map pos (hundredths whole part) }
{
    Some(i64::from(whole?) * 100 + i64::from(part?))
}

// A number, a point and two digits, as 12.50: how many hundredths.
fn hundredths_in(word: &str) -> Option<i64>
    ensures { result ≡ option_map pos (hundredths_in word.now) }
{
    let (whole, rest) = word.split_at_checked(word.len().checked_sub(3)?)?;
    let part = rest.strip_prefix('.')?;
    hundredths(whole_in(whole), whole_in(part))
}

// Degrees in hundredths, as 12.50 or -0.50.
pub(crate) fn degrees_in(word: &str) -> Option<i16>
    ensures { result ≡ degrees_in word.now }
{
    match word.strip_prefix('-') {
        Some(size) => i16::try_from(-hundredths_in(size)?).ok(),
        None => i16::try_from(hundredths_in(word)?).ok(),
    }
}
