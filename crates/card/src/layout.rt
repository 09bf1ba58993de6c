// The characters of a card: where they are, how they read, and how a strip is written.
ghost use Rattle.std.specs.Prelude.{◌≡◌, ◌≤◌, length};
ghost use Rattle.std.proofs.Common.{rules};
ghost use Rattle.card.specs.Layout.{strip_gone, card_plan};
ghost use Rattle.card.specs.Laws.{card_laws};
ghost use Rattle.card.specs.Made.{card_laid, card_fresh};
ghost use Rattle.card.specs.Make.{Laid, AllOpen};
ghost use Rattle.card.specs.Stored.{Line};

use crate::alphabet::{in_alphabet, letter_of, value_of};
use medium::{Counts, Look};
use memory::{InMemory, Layout};

/// A card over the caller's memory.
pub type Card<'a> = InMemory<'a, CardLayout>;

/// A line to a strip: a character for each square, then a newline, at which nothing ever looks.
pub struct CardLayout;

impl Layout for CardLayout {
    const LEVELS: usize = 37;

    ghost LEVELS = { 37 };

    ghost plan = { card_plan };

    ghost Holds = { Line };

    ghost Laid = { Laid };

    ghost Fresh = { AllOpen };

    ghost levels = { Prim.search rules };

    ghost laws = { card_laws };

    ghost laid = { card_laid };

    ghost fresh = { card_fresh };

    fn width(counts: Counts) -> usize {
        counts.squares() + 1
    }

    fn fresh_byte(counts: Counts, place: usize) -> u8 {
        if place % Self::width(counts) == counts.squares() {
            b'\n'
        } else {
            b' '
        }
    }

    fn look(strip: &[u8], counts: Counts, square: usize) -> Look {
        if is_gone(strip, counts.squares()) {
            return Look::Gone;
        }
        match value_of(strip[square]) {
            Some(code) => Look::Clear(code),
            None => Look::Doubtful,
        }
    }

    fn is_writable(strip: &[u8], counts: Counts) -> bool {
        strip[..counts.squares()].iter().all(|&byte| byte == b' ')
    }

    fn store(strip: &mut [u8], codes: &[u8]) {
        for (k, &code) in codes.iter().enumerate() {
            strip[k] = letter_of(code);
        }
        strip[codes.len()] = b'\n';
    }
}

// Whether none of the characters of a strip is in the alphabet. Asks for as many characters.
fn is_gone(strip: &[u8], squares: usize) -> bool
    requires { squares ≤ length strip.now }
    ensures value { result ≡ strip_gone strip.now 0 squares }
{
    strip[..squares].iter().all(|&byte| !in_alphabet(byte))
}
