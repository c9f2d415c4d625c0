// Numbers as they are written in words.
ghost use Rattle.std.specs.Prelude.{◌≡◌};
ghost use Rattle.std.specs.Char.{is_ascii_digit};
ghost use Rattle.std.specs.List.{list_all};
ghost use Rattle.text.specs.Numbers.{IsNumberIn};

use std::str::FromStr;

fn is_digits(word: &str) -> bool
    ensures { result ≡ list_all is_ascii_digit word.now }
{
    // to the end, whatever is found: so many bytes are tried at once, which costs less than to stop early
    let mut all = true;
    for b in word.as_bytes() {
        all &= b.is_ascii_digit();
    }
    all
}

// A number of one or more digits and nothing else, where the type has it: what is parsed may begin with a sign, too.
pub fn number_in<T: FromStr>(word: &str) -> Option<T>
where
    T::Err: Drop,
    ensures { IsNumberIn T.FromStr.from_str_gives word.now result }
{
    if !is_digits(word) {
        return None;
    }
    word.parse().ok()
}
