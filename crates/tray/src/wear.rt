// How a tray wears: one square or one strip at a time, and no other byte.
ghost use Rattle.std.specs.Prelude.{◌≡◌, ◌+◌, ◌^◌, ◌<◌, ℕ, IfOk, IfErr, List, slice_set};
ghost use Rattle.refusal.specs.declared.Refusal.TheVariants.{NoSuchPlace};
ghost use Rattle.medium.specs.Counts.{Shape};
ghost use Rattle.medium.specs.Limits.{Suited};
ghost use Rattle.medium.specs.Places.{strip_at};
ghost use Rattle.tray.specs.Layout.{width, code_at, doubt_at};
ghost use Rattle.tray.specs.Make.{no_strip, no_square, Wears};

use crate::layout::{Tray, TrayLayout};
use medium::Counts;
use memory::Layout;
use refusal::Refusal;

/// What wear does to a tray.
pub trait Wear {
    ghost counted: { Self → Shape };

    ghost stored: { Self → List ℕ };

    /// Sets the code byte of a square, and clears its doubt byte; refused with 3 if there is no such square.
    fn set_code(
        &mut self,
        frame: usize,
        strip: usize,
        square: usize,
        code: u8,
    ) -> Result<(), Refusal>
        ensures worn { Wears (no_square (counted self.old) frame strip square) (stored self.old) (slice_set (slice_set (stored self.old) (code_at (counted self.old).strips (counted self.old).squares frame strip square) code) (doubt_at (counted self.old).strips (counted self.old).squares frame strip square) 0) result (stored self.new) }
        ensures counts { counted self.new ≡ counted self.old };

    /// Sets the doubt byte of a square to 1; refused with 3 if there is no such square.
    fn set_doubt(&mut self, frame: usize, strip: usize, square: usize) -> Result<(), Refusal>
        ensures worn { Wears (no_square (counted self.old) frame strip square) (stored self.old) (slice_set (stored self.old) (doubt_at (counted self.old).strips (counted self.old).squares frame strip square) 1) result (stored self.new) }
        ensures counts { counted self.new ≡ counted self.old };

    /// Sets the status byte of a strip to 1; refused with 3 if there is no such strip.
    fn set_gone(&mut self, frame: usize, strip: usize) -> Result<(), Refusal>
        ensures worn { Wears (no_strip (counted self.old) frame strip) (stored self.old) (slice_set (stored self.old) (strip_at (counted self.old).strips (width (counted self.old).squares) frame strip) 1) result (stored self.new) }
        ensures counts { counted self.new ≡ counted self.old };
}

impl<'a> Wear for Tray<'a> {
    ghost counted = { λ t. t.counts };

    ghost stored = { λ t. t.bytes.now };

    fn set_code(
        &mut self,
        frame: usize,
        strip: usize,
        square: usize,
        code: u8,
    ) -> Result<(), Refusal>
        ensures worn { Wears (no_square self.old.counts frame strip square) self.old.bytes.now (slice_set (slice_set self.old.bytes.now (code_at self.old.counts.strips self.old.counts.squares frame strip square) code) (doubt_at self.old.counts.strips self.old.counts.squares frame strip square) 0) result self.new.bytes.now }
        ensures left { self.new.bytes.ghost_name ≡ self.old.bytes.ghost_name }
        ensures counts { self.new.counts ≡ self.old.counts }
        ensures suited { Suited self.old.counts.frames self.old.counts.strips self.old.counts.squares }
    {
        let at = find_code(self.counts, frame, strip, square)?;
        put(self.bytes, at, code);
        put(self.bytes, at + self.counts.squares(), 0);
        Ok(())
    }

    fn set_doubt(&mut self, frame: usize, strip: usize, square: usize) -> Result<(), Refusal>
        ensures worn { Wears (no_square self.old.counts frame strip square) self.old.bytes.now (slice_set self.old.bytes.now (doubt_at self.old.counts.strips self.old.counts.squares frame strip square) 1) result self.new.bytes.now }
        ensures left { self.new.bytes.ghost_name ≡ self.old.bytes.ghost_name }
        ensures counts { self.new.counts ≡ self.old.counts }
        ensures suited { Suited self.old.counts.frames self.old.counts.strips self.old.counts.squares }
    {
        let at = find_code(self.counts, frame, strip, square)?;
        put(self.bytes, at + self.counts.squares(), 1);
        Ok(())
    }

    fn set_gone(&mut self, frame: usize, strip: usize) -> Result<(), Refusal>
        ensures worn { Wears (no_strip self.old.counts frame strip) self.old.bytes.now (slice_set self.old.bytes.now (strip_at self.old.counts.strips (width self.old.counts.squares) frame strip) 1) result self.new.bytes.now }
        ensures left { self.new.bytes.ghost_name ≡ self.old.bytes.ghost_name }
        ensures counts { self.new.counts ≡ self.old.counts }
        ensures suited { Suited self.old.counts.frames self.old.counts.strips self.old.counts.squares }
    {
        let counts = self.counts;
        if !counts.has_strip(frame, strip) {
            return Err(Refusal::NoSuchPlace);
        }
        let width = TrayLayout::width(counts);
        put(self.bytes, counts.strip_at(frame, strip, width), 1);
        Ok(())
    }
}

// Where the code byte of a square is; refused with 3 if there is no such square.
fn find_code(counts: Counts, frame: usize, strip: usize, square: usize) -> Result<usize, Refusal>
    ensures ok { IfOk result (λ at. (no_square counts frame strip square → ⊥) × (at ≡ code_at counts.strips counts.squares frame strip square) × (at < 2 ^ 31)) }
    ensures err { IfErr result (λ e. (e ≡ NoSuchPlace) × no_square counts frame strip square) }
    ensures suited { Suited counts.frames counts.strips counts.squares }
{
    if !counts.has_square(frame, strip, square) {
        return Err(Refusal::NoSuchPlace);
    }
    let width = TrayLayout::width(counts);
    Ok(counts.strip_at(frame, strip, width) + 1 + square)
}

// Writes a byte, if there is such a place.
// Stays: the memory may have any length, and wear writes one byte of it by its place.
fn put(bytes: &mut [u8], at: usize, byte: u8)
    ensures left { bytes.new ≡ slice_set bytes.old at byte }
{
    if at < bytes.len() {
        bytes[at] = byte;
    }
}
