// A line as far as it is made: bytes, numbers and symbols are put at its end.
ghost use Rattle.std.specs.Prelude.{◌≡◌, ℕ, ◌+◌, ◌*◌, ◌<◌, ◌≤◌, List, [], ◌∷◌, ◌++◌, length, drop};
ghost use Rattle.std.specs.List.{flat_map};
ghost use Rattle.lines.specs.Lines.{hex, hex_digit};

use arrayvec::ArrayVec;
use itoa::{Buffer, Integer};
use std::marker::Model;

/// How many bytes the buffer of a line has.
pub const LINE_SIZE: usize = 600;

/// A line as far as it is made.
#[derive(Drop)]
pub struct Line {
    bytes: ArrayVec<u8, LINE_SIZE>,
}

// Clauses see a line as its bytes.
impl Model for Line {
    ghost Value = { List ℕ };

    ghost view = { λ line. line.bytes.items };
}

// Stays: `encode_upper` of the crate `hex` needs an allocator, and `write!` with `{:02X}` never promises `Ok`.
fn hex_digit(d: u8) -> u8
    requires { d < 16 }
    ensures { result ≡ hex_digit d }
{
    if d < 10 { b'0' + d } else { b'A' - 10 + d }
}

impl Line {
    pub fn new() -> Self
        ensures { result ≡ [] }
    {
        Line {
            bytes: ArrayVec::new(),
        }
    }

    pub fn put(&mut self, byte: u8)
        requires { length self.old < LINE_SIZE }
        ensures { self.new ≡ self.old ++ byte ∷ [] }
    {
        self.bytes.push(byte);
    }

    /// A space, and a number in decimal.
    pub fn put_figure<I: Integer>(&mut self, number: I)
        requires { length self.old + 1 + I.MAX_STR_LEN ≤ LINE_SIZE }
        ensures value { self.new ≡ self.old ++ 32 ∷ I.text number }
        ensures short { length self.new ≤ length self.old + 1 + I.MAX_STR_LEN }
    {
        self.put(b' ');
        let mut buffer = Buffer::new();
        let digits = buffer.format(number).as_bytes();
        self.bytes.try_extend_from_slice(digits).unwrap();
    }

    /// Symbols in hexadecimal.
    pub fn put_hex(&mut self, symbols: &[u8])
        requires { length self.old + 2 * length symbols.now ≤ LINE_SIZE }
        ensures value { self.new ≡ self.old ++ flat_map hex symbols.now }
        ensures long { length self.new ≡ length self.old + 2 * length symbols.now }
    {
        for &symbol in symbols {
            self.put(hex_digit(symbol / 16));
            self.put(hex_digit(symbol % 16));
        }
    }

    /// Lays the line over the front of a buffer, and answers the line's length.
    pub fn copy_to(&self, out: &mut [u8]) -> usize
        requires { length self.now ≤ length out.old }
        ensures value { result ≡ length self.now }
        ensures front { out.new ≡ self.now ++ drop (length self.now) out.old }
    {
        let line = self.bytes.as_slice();
        out[..line.len()].copy_from_slice(line);
        line.len()
    }
}
