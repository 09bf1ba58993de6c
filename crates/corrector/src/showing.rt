// Correction from codes and marks.
ghost use Rattle.std.specs.Prelude.{◌≡◌, ◌*◌, length};
ghost use Rattle.laws.specs.Ops.{Ops, Laws};
ghost use Rattle.fitting.specs.Reading.{showing_of};
ghost use Rattle.attempts.specs.Attempts.{Summed};
ghost use Rattle.corrector.specs.Corrects.{Corrects};

use crate::sums::correct_sums;
use attempts::read_out;
use field::Field;
use fitting::{Counts, Reading, Shown};
use frame::Locators;
use geometry::Geometry;
use refusal::Refusal;

// The check sums of the clear codes.
fn sum_up<F: Field>(reading: &Reading, checks: &mut [u8])
    requires order { reading.now.geometry.order ≡ F.Field.ops.order }
    requires size { length checks.old ≡ reading.now.geometry.squares * reading.now.geometry.checks }
    ensures { let g = reading.now.geometry in Summed F.Field.ops g.squares g.strips g.checks (showing_of reading.now) checks.new }
{
    let geometry = reading.geometry();
    let mut base = [0; 256];
    let base = &mut base[..geometry.frame_size()];
    read_out(geometry.order(), geometry.squares(), *reading.shown(), base);
    Locators::<F>::new().check_sums(geometry, base, checks);
}

/// Puts the frame that fits what is shown into the buffer, and tells what was wrong with what is shown. A strip or a square whose
/// mark is not 0 is gone or doubtful. A refusal leaves the buffer as it was.
pub fn correct<F: Field>(
    geometry: &Geometry,
    shown: Shown,
    frame: &mut [u8],
) -> Result<Counts, Refusal>
    ensures frame { Corrects F.Field.ops geometry.now shown.entry frame.old frame.new result }
{
    let reading = Reading::new::<F>(geometry, shown)?;
    if frame.len() != geometry.frame_size() {
        return Err(Refusal::WrongLength);
    }
    if reading.count_gone() >= geometry.checks() {
        return Err(Refusal::TooManyGone);
    }
    if reading.count_doubtful() > geometry.squares() {
        return Err(Refusal::TooManyDoubtful);
    }
    let mut checks = [0; 256];
    let checks = &mut checks[..geometry.squares() * geometry.checks()];
    sum_up::<F>(&reading, checks);
    let found = correct_sums::<F>(&reading, checks, frame);
    found.ok_or(Refusal::NoFit)
}
