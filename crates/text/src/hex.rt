// Frames as text.
ghost use Rattle.std.specs.Prelude.{◌≡◌, vec_items};
ghost use Rattle.text.specs.Hex.{is_digit, digit_value, first_bad, hex, Decodes};

use crate::fault::HexFault;
use std::alloc::Global;

// Apart from the value: a bad digit is told before anything is decoded.
fn is_digit(c: u8) -> bool
    ensures { result ≡ is_digit c }
{
    matches!(c, b'0'..=b'9' | b'a'..=b'f')
}

fn digit_value(c: u8) -> u8
    ensures { result ≡ digit_value c }
{
    let zero = if c <= b'9' { b'0' } else { b'a' - 10 };
    c.saturating_sub(zero) % 16
}

// The place of the first character that is no digit.
fn bad_digit(text: &[u8]) -> Option<usize>
    ensures { result ≡ first_bad 0 text.now }
{
    text.iter().position(|c| !is_digit(*c))
}

// The bytes that a text means: two lowercase digits for each.
pub fn decode_hex(heap: Global, text: &[u8]) -> Result<Vec<u8>, HexFault>
    ensures { Decodes vec_items result (hex text.now) }
{
    // a place, if there is one, is a find and no error before this line
    if let Some(place) = bad_digit(text) {
        return Err(HexFault::Digit(place));
    }
    let (pairs, rest) = text.as_chunks::<2>();
    if !rest.is_empty() {
        return Err(HexFault::Odd(text.len()));
    }
    let bytes = pairs
        .iter()
        .map(|[high, low]| digit_value(*high) * 16 + digit_value(*low))
        .collect(heap)?;
    Ok(bytes)
}
