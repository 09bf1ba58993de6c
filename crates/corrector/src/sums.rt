// Correction from check sums: whoever gathered them.
ghost use Rattle.std.specs.Prelude.{◌≡◌, ◌*◌, length};
ghost use Rattle.laws.specs.Ops.{Ops, Laws};
ghost use Rattle.fitting.specs.Reading.{showing_of};
ghost use Rattle.attempts.specs.Attempts.{Summed, Ready, Settled};

use attempts::find;
use field::Field;
use fitting::{Counts, Reading};

/// The counts and, in the buffer, the frame that fits what is shown, from the check sums of the clear codes (0 where a square is
/// not clear). `None`, and the buffer as it was, if no frame fits.
/// A helper shared between crates: it asks for the geometry's field, the buffer's length, not too many gone strips or doubtful
/// squares, and the check sums of what is read.
pub fn correct_sums<F: Field>(reading: &Reading, checks: &[u8], frame: &mut [u8]) -> Option<Counts>
    requires ready { Ready F.Field.ops reading.now }
    requires size { length frame.old ≡ reading.now.geometry.strips * reading.now.geometry.squares }
    requires summed { let g = reading.now.geometry in Summed F.Field.ops g.squares g.strips g.checks (showing_of reading.now) checks.now }
    ensures { let g = reading.now.geometry in Settled F.Field.ops g.squares g.strips g.checks (showing_of reading.now) frame.old frame.new result }
{
    let fit = find::<F>(reading, checks)?;
    let size = frame.len();
    frame.copy_from_slice(&fit.frame[..size]);
    Some(fit.counts)
}
