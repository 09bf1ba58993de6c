// The alphabet of a card: the one place where characters and codes meet.
ghost use Rattle.std.specs.Prelude.{◌≡◌, ◌<◌};
ghost use Rattle.card.specs.Alphabet.{value_of, letter, character_of, is_letter, Stands};

// Stays: a character and a code are both a byte, and a `TryFrom` would need a type that wraps one of them.
/// The code of a character, if it is in the alphabet.
pub fn value_of(byte: u8) -> Option<u8>
    ensures value { result ≡ value_of byte }
{
    match byte {
        b'0'..=b'9' => Some(byte - b'0'),
        b'A'..=b'Z' => Some(byte - b'A' + 10),
        b'*' => Some(36),
        _ => None,
    }
}

/// The character of a code, if it is below 37.
pub fn character_of(code: u8) -> Option<u8>
    ensures value { result ≡ character_of code }
{
    if code < 37 {
        Some(letter_of(code))
    } else {
        None
    }
}

// The character of a code. Asks for a code below 37.
pub fn letter_of(code: u8) -> u8
    requires { code < 37 }
    ensures value { result ≡ letter code }
{
    match code {
        0..=9 => b'0' + code,
        10..=35 => b'A' - 10 + code,
        _ => b'*',
    }
}

// Whether a byte is in the alphabet.
pub fn in_alphabet(byte: u8) -> bool
    ensures value { result ≡ is_letter byte }
{
    value_of(byte).is_some()
}

/// Each code below 37 has a character that reads as that code, and no other byte does.
pub fn alphabet_stands()
    ensures value { Stands }
{}
