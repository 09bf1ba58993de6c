// The bytes of a tray: where they are, how they read, and how a strip is written.
ghost use Rattle.std.proofs.Common.{rules};
ghost use Rattle.tray.specs.Layout.{tray_plan};
ghost use Rattle.tray.specs.Make.{Laid, Fresh};
ghost use Rattle.tray.specs.Stored.{Strip};
ghost use Rattle.tray.specs.Laws.{tray_laws};
ghost use Rattle.tray.specs.Made.{tray_laid, tray_fresh};

use medium::{Counts, Look};
use memory::{InMemory, Layout};

/// A tray over the caller's memory.
pub type Tray<'a> = InMemory<'a, TrayLayout>;

/// For each strip a status byte, which is 0 where the strip is there, a code byte for each square, and a doubt byte for each
/// square, which is 0 where the code can be told.
pub struct TrayLayout;

impl Layout for TrayLayout {
    const LEVELS: usize = 256;

    ghost LEVELS = { 256 };

    ghost plan = { tray_plan };

    ghost Holds = { Strip };

    ghost Laid = { Laid };

    ghost Fresh = { Fresh };

    ghost levels = { Prim.search rules };

    ghost laws = { tray_laws };

    ghost laid = { tray_laid };

    ghost fresh = { tray_fresh };

    fn width(counts: Counts) -> usize {
        1 + 2 * counts.squares()
    }

    fn fresh_byte(counts: Counts, place: usize) -> u8 {
        u8::from(place % Self::width(counts) == 0)
    }

    fn look(strip: &[u8], counts: Counts, square: usize) -> Look {
        if strip[0] != 0 {
            return Look::Gone;
        }
        if strip[1 + counts.squares() + square] != 0 {
            return Look::Doubtful;
        }
        Look::Clear(strip[1 + square])
    }

    fn is_writable(_strip: &[u8], _counts: Counts) -> bool {
        true
    }

    fn store(strip: &mut [u8], codes: &[u8]) {
        let squares = codes.len();
        strip[0] = 0;
        strip[1..1 + squares].copy_from_slice(codes);
        strip[1 + squares..].fill(0);
    }
}
