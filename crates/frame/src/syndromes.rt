// The check sums of an array.
ghost use Rattle.std.specs.Prelude.{◌≡◌, ◌*◌, length};
ghost use Rattle.refusal.specs.Codes.{Below};
ghost use Rattle.laws.specs.Ops.{Ops, Laws};
ghost use Rattle.frame.specs.Tables.{Powers, RowSums, Sums};

use crate::power_sums::moments;
use crate::table::{column_sums, gather_row};
use field::Field;

// From each strip's power sums to the check sums.
// Stays: the sizes and the room of `check_sums`, whose second step it is.
fn sum_rows<F: Field>(
    m: usize,
    c: usize,
    locators: &[u8],
    columns: &[u8],
    table: &mut [u8],
    row: &mut [u8],
)
    requires columns_size { length columns.now ≡ length row.old * m }
    requires table_size { length table.old ≡ m * c }
    requires row_size { length locators.now ≡ length row.old }
    requires locators_below { Below F.Field.ops.order locators.now }
    requires columns_below { Below F.Field.ops.order columns.now }
    ensures value { RowSums F.Field.ops m c m locators.now columns.now table.new }
{
    // Stays: c may be 0, and after a loop over chunks_exact_mut a proof knows the table's length alone.
    for h in 0..m {
        gather_row(m, h, columns, row);
        moments::<F>(locators, row, &mut table[h * c..h * c + c]);
    }
}

/// The check sums of an array: m rows of c.
/// A helper shared between crates: it asks for the powers of the generator as locators, codes, and the sizes of a geometry.
// Stays: it asks for no geometry, whose rule would be more than it asks; Locators::check_sums is it for a geometry.
pub fn check_sums<F: Field>(
    m: usize,
    c: usize,
    strip_locators: &[u8],
    square_locators: &[u8],
    array: &[u8],
    table: &mut [u8],
    columns: &mut [u8],
    row: &mut [u8],
    work: &mut [u8],
)
    requires strips { Powers F.Field.ops F.Field.ops.generator strip_locators.now }
    requires squares { Powers F.Field.ops F.Field.ops.generator square_locators.now }
    requires strips_size { length strip_locators.now ≡ length row.old }
    requires squares_size { length square_locators.now ≡ length row.old * m }
    requires array_size { length array.now ≡ length row.old * m }
    requires columns_size { length columns.old ≡ length row.old * m }
    requires table_size { length table.old ≡ m * c }
    requires work_size { length work.old ≡ m }
    requires below { Below F.Field.ops.order array.now }
    ensures value { Sums F.Field.ops m (length row.old) c array.now table.new }
{
    column_sums::<F>(m, row.len(), square_locators, array, work, columns);
    sum_rows::<F>(m, c, strip_locators, columns, table, row);
}
