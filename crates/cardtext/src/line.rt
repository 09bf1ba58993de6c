// Lines that come byte by byte, of which no more is kept than is of use.
ghost use Rattle.std.specs.Prelude.{◌≡◌, ℕ, List, [], ◌∷◌, ◌++◌, take};
ghost use Rattle.cardtext.specs.Kept.{Kept, Enough};

use arrayvec::ArrayVec;
use std::marker::Model;

/// The start of a line that comes byte by byte: its first `N` bytes, or all of them if it has fewer.
#[derive(Drop)]
pub struct LineBuffer<const N: usize> {
    bytes: ArrayVec<u8, N>,
}

// Clauses see the bytes that are kept.
impl<const N: usize> Model for LineBuffer<N> {
    ghost Value = { List ℕ };

    ghost view = { λ b. b.bytes.items };
}

impl<const N: usize> LineBuffer<N> {
    /// What is kept of a line of which no byte came yet.
    pub fn new() -> Self
        ensures value { result ≡ [] }
        ensures kept { Kept N [] result }
    {
        LineBuffer {
            bytes: ArrayVec::new(),
        }
    }

    /// Keeps the next byte of the line, if there is room for it.
    pub fn push(&mut self, byte: u8)
        ensures value { self.new ≡ take N (self.old ++ (byte ∷ [])) }
        ensures kept { (line : List ℕ) → Kept N line self.old → Kept N (line ++ (byte ∷ [])) self.new }
    {
        let _ = self.bytes.try_push(byte);
    }

    /// Forgets the line.
    pub fn clear(&mut self)
        ensures value { self.new ≡ [] }
        ensures kept { Kept N [] self.new }
    {
        self.bytes.clear();
    }

    pub fn as_slice(&self) -> &[u8]
        ensures value { result.now ≡ self.now }
    {
        self.bytes.as_slice()
    }
}

/// What is kept in a buffer of more than 36 bytes is enough: `frame_line` answers it as it would the whole line.
pub fn kept_is_enough()
    ensures value { Enough }
{}
