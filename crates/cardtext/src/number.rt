// Numbers in decimal digits.
ghost use Rattle.std.specs.Prelude.{◌≡◌, ◌+◌, ◌-◌, ◌*◌, ◌^◌, ◌<◌, length, MatchOption};
ghost use Rattle.cardtext.specs.Numerals.{IsDigit, Parses};

// The number with one digit more, if the byte is a digit and it still fits.
fn append_digit(number: usize, byte: u8) -> Option<usize>
    ensures value { MatchOption result (IsDigit byte → number * 10 + (byte - 48) < 2 ^ 64 → ⊥) (λ v. IsDigit byte × (v ≡ number * 10 + (byte - 48)) × (v < 2 ^ 64)) }
{
    match byte {
        b'0'..=b'9' => number
            .checked_mul(10)?
            .checked_add(usize::from(byte - b'0')),
        _ => None,
    }
}

/// The number that a text of decimal digits writes, if it is nothing but digits, not empty, and the number fits.
// Stays: `usize::from_str` takes a sign as well, and asks for a `str`.
pub fn parse_number(text: &[u8]) -> Option<usize>
    ensures value { Parses text.now result }
{
    if text.is_empty() {
        return None;
    }
    let mut number = 0;
    for &byte in text {
        number = append_digit(number, byte)?;
    }
    Some(number)
}
