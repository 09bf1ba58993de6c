// The locators of strips and squares: the powers of the generator.
ghost use Rattle.std.specs.Prelude.{◌≡◌, ◌*◌, ◌≤◌, length, take};
ghost use Rattle.refusal.specs.Codes.{Below};
ghost use Rattle.laws.specs.Ops.{Ops};
ghost use Rattle.frame.specs.Tables.{Powers, Sums};

use crate::syndromes::check_sums;
use field::Field;
use geometry::Geometry;
use std::marker::PhantomData;

/// The powers of the field's generator, from exponent 0 on. The strips' locators are the first of them, and so are the squares'.
#[derive(Drop)]
pub struct Locators<F: Field> {
    powers: [u8; 256],
    field: PhantomData<F>,
    ghost made: { Powers F.Field.ops F.Field.ops.generator powers },
}

impl<F: Field> Default for Locators<F> {
    fn default() -> Self {
        Self::new()
    }
}

impl<F: Field> Locators<F> {
    pub fn new() -> Self {
        Locators {
            powers: F::powers(),
            field: PhantomData,
        }
    }

    /// The first n of them. A helper shared between crates: it asks for n of at most 256.
    pub fn first(&self, n: usize) -> &[u8]
        requires { n ≤ 256 }
        ensures size { length result.now ≡ n }
        ensures powers { Powers F.Field.ops F.Field.ops.generator result.now }
        ensures prefix { result.now ≡ take n self.now.powers }
    {
        &self.powers[..n]
    }

    /// The check sums of an array of a geometry: a row of as many as there are check strips for each square of a strip.
    /// A helper shared between crates: it asks for a geometry of this field, and for codes.
    pub fn check_sums(&self, geometry: &Geometry, array: &[u8], table: &mut [u8])
        requires field { geometry.now.order ≡ F.Field.ops.order }
        requires array_size { length array.now ≡ geometry.now.strips * geometry.now.squares }
        requires table_size { length table.old ≡ geometry.now.squares * geometry.now.checks }
        requires below { Below F.Field.ops.order array.now }
        ensures value { Sums F.Field.ops geometry.now.squares geometry.now.strips geometry.now.checks array.now table.new }
    {
        let m = geometry.squares();
        let n = geometry.strips();
        let size = geometry.frame_size();
        let mut columns = [0; 256];
        let columns = &mut columns[..size];
        let mut row = [0; 256];
        let row = &mut row[..n];
        let mut work = [0; 256];
        let work = &mut work[..m];
        check_sums::<F>(
            m,
            geometry.checks(),
            self.first(n),
            self.first(size),
            array,
            table,
            columns,
            row,
            work,
        );
    }
}
