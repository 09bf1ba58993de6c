// The one frame that an array may have been: the doubtful squares first, then each row, then each strip.
ghost use Rattle.std.specs.Prelude.{◌≡◌, Bool, List, [], ℕ, ◌*◌, ◌<◌, ◌≤◌, length, get_or};
ghost use Rattle.refusal.specs.Codes.{Below};
ghost use Rattle.laws.specs.Ops.{Ops, Laws, less};
ghost use Rattle.frame.specs.Tables.{Powers};
ghost use Rattle.candidates.specs.Chosen.{Chosen, NearAt, HeldAt, FoundAt};

use crate::erasures::erase_one;
use crate::site::Site;
use field::Field;
use frame::{scatter_row, solve_strips};
use solver::row_errors;

// The errors of each row of the table, into the strips' power sums.
fn decode_rows<F: Field>(site: &Site<F>, table: &[u8], columns: &mut [u8])
    requires size { length table.now ≡ site.now.geometry.now.squares * site.now.geometry.now.checks }
    requires codes { Below F.Field.ops.order table.now }
    requires columns_size { length columns.old ≡ site.now.geometry.now.strips * site.now.geometry.now.squares }
    ensures { FoundAt F.Field.ops site.now.geometry.now site.now.gone.now table.now columns.new }
{
    let m = site.geometry.squares();
    let n = site.geometry.strips();
    let c = site.geometry.checks();
    let strips = site.locators.first(n);
    let mut row = [0; 256];
    let row = &mut row[..n];
    for (h, sums) in table.chunks_exact(c).enumerate() {
        row_errors::<F>(strips, sums, site.gone, row);
        scatter_row(m, h, row, columns);
    }
}

// Takes each of the errors away from its symbol.
fn subtract<F: Field>(errors: &[u8], array: &mut [u8])
    requires { length errors.now ≡ length array.old }
    ensures { (p : ℕ) → p < length array.old → get_or array.new p 0 ≡ less F.Field.ops (get_or array.old p 0) (get_or errors.now p 0) }
{
    for (p, symbol) in array.iter_mut().enumerate() {
        *symbol = F::sub(*symbol, errors[p]);
    }
}

// Takes the errors of the strips out of an array without doubtful squares.
fn restore<F: Field>(site: &Site<F>, array: &mut [u8], table: &[u8])
    requires { HeldAt F.Field.ops site.now.geometry.now array.old table.now }
    ensures below { Below F.Field.ops.order array.new }
    ensures frame { (wrong : ℕ → Bool) (ys : List ℕ) → NearAt F.Field.ops site.now.geometry.now site.now.gone.now wrong [] array.old ys → array.new ≡ ys }
{
    let m = site.geometry.squares();
    let n = site.geometry.strips();
    let size = site.geometry.frame_size();
    let mut columns = [0; 256];
    let columns = &mut columns[..size];
    decode_rows(site, table, columns);
    solve_strips::<F>(m, n, site.locators.first(size), columns);
    subtract::<F>(columns, array);
}

/// The frame that the array agrees with but for gone strips, a few wrong ones and the listed squares, if there is one. Uses the
/// table up.
/// A helper shared between crates: it asks for listed squares that are all different and no more than a strip has, and for the
/// check sums of the array.
pub fn candidate<F: Field>(site: &Site<F>, squares: &[u8], array: &mut [u8], table: &mut [u8])
    requires chosen { Chosen site.now.geometry.now.squares site.now.geometry.now.strips squares.now }
    requires held { HeldAt F.Field.ops site.now.geometry.now array.old table.old }
    ensures below { Below F.Field.ops.order array.new }
    ensures frame { (wrong : ℕ → Bool) (ys : List ℕ) → NearAt F.Field.ops site.now.geometry.now site.now.gone.now wrong squares.now array.old ys → array.new ≡ ys }
{
    for (k, square) in squares.iter().enumerate() {
        erase_one(site, usize::from(*square), &squares[k + 1..], array, table);
    }
    restore(site, array, table);
}
