// What every attempt starts from.
ghost use Rattle.std.specs.Prelude.{◌≡◌, ◌≤◌, length};
ghost use Rattle.laws.specs.Ops.{Ops, Laws};
ghost use Rattle.fitting.specs.Reading.{showing_of};
ghost use Rattle.attempts.specs.Attempts.{Prepared};

use candidates::Site;
use field::Field;
use fitting::Reading;

// What every attempt starts from: what is shown, the strips that are gone, the clear codes with their check sums, and the
// doubtful squares.
#[derive(Drop)]
pub struct Start<'a, 's, F: Field> {
    pub reading: &'a Reading<'a>,
    pub site: Site<'s, F>,
    pub base: &'a [u8],
    pub checks: &'a [u8],
    pub doubtful: &'a [u8],
    ghost same: { site.geometry.now ≡ reading.now.geometry },
    ghost prepared: { Prepared F.Field.ops reading.now.geometry.squares reading.now.geometry.strips reading.now.geometry.checks (showing_of reading.now) site.gone.now base.now checks.now doubtful.now },
    ghost few: { length doubtful.now ≤ reading.now.geometry.squares },
}
