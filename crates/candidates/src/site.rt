// The strips of an array, and which of them are gone.
ghost use Rattle.std.specs.Prelude.{◌≡◌, ◌<◌, length};
ghost use Rattle.laws.specs.Ops.{Ops, Laws, power};
ghost use Rattle.algebra.specs.Showings.{count};
ghost use Rattle.solver.specs.Sums.{marked};

use field::Field;
use frame::Locators;
use geometry::Geometry;

/// The strips of an array: how it is laid out, the locators of strips and squares, and which of the strips are gone.
#[derive(Drop)]
pub struct Site<'a, F: Field> {
    pub geometry: &'a Geometry,
    pub locators: &'a Locators<F>,
    pub gone: &'a [bool],
    ghost order: { geometry.now.order ≡ F.Field.ops.order },
    ghost marks: { length gone.now ≡ geometry.now.strips },
    ghost room: { count geometry.now.strips (marked gone.now) < geometry.now.checks },
}

impl<'a, F: Field> Site<'a, F> {
    /// The locator of the square at a place, or of a strip.
    /// A helper shared between crates: it asks for a place that a byte holds.
    pub fn locator(&self, place: usize) -> u8
        requires { place < 256 }
        ensures { result ≡ power F.Field.ops F.Field.ops.generator place }
    {
        self.locators.first(256)[place]
    }
}
