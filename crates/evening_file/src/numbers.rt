// The value of a number word: an optional minus, then 1 to 12 digits.
ghost use Rattle.std.specs.Prelude.{◌≡◌, ◌-◌, ◌<◌, true, false, pos, MatchOption};
ghost use Rattle.std.specs.Option.{option_map};
ghost use Rattle.evening_file.specs.Numbers.{digit, unsigned, number};

// How many digits a number may have.
const MAX_DIGITS: usize = 12;

// The value of one digit.
fn digit_value(byte: u8) -> Option<i64>
    ensures { MatchOption result (digit byte ≡ false) (λ d. (digit byte ≡ true) × (d ≡ pos (byte - 48)) × (byte - 48 < 10)) }
{
    char::from(byte).to_digit(10).map(i64::from)
}

// The value of 1 to 12 digits. The library's `parse` takes a plus, any number of digits, and text alone.
fn digits_value(digits: &[u8]) -> Option<i64>
    ensures { result ≡ option_map pos (unsigned digits.now) }
{
    if digits.is_empty() || digits.len() > MAX_DIGITS {
        return None;
    }
    let mut value = 0;
    for byte in digits {
        value = value * 10 + digit_value(*byte)?;
    }
    Some(value)
}

// The value of a number word.
pub(crate) fn number_value(word: &[u8]) -> Option<i64>
    ensures { result ≡ number word.now }
{
    match word {
        [b'-', digits @ ..] => digits_value(digits).map(|value| -value),
        _ => digits_value(word),
    }
}
