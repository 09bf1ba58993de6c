// Tables of sums: each strip's power sums, and the check sums of an array.
ghost use Rattle.std.specs.Prelude.{◌≡◌, ◌*◌, ◌<◌, ◌≤◌, length};
ghost use Rattle.refusal.specs.Codes.{Below};
ghost use Rattle.laws.specs.Ops.{Ops, Laws};
ghost use Rattle.solver.specs.Sums.{Apart};
ghost use Rattle.frame.specs.Tables.{Columns, Row, Scattered, FilledIn};

use crate::power_sums::moments;
use field::Field;
use solver::solve;

/// Each strip's power sums at its squares' locators, strip by strip.
/// A helper shared between crates: it asks for codes, and for n strips of m squares in each list.
// Stays: it asks for sizes and for no geometry, whose rule would be more than it asks.
pub fn column_sums<F: Field>(
    m: usize,
    n: usize,
    locators: &[u8],
    array: &[u8],
    work: &mut [u8],
    columns: &mut [u8],
)
    requires locators_size { length locators.now ≡ n * m }
    requires array_size { length array.now ≡ n * m }
    requires columns_size { length columns.old ≡ n * m }
    requires work_size { length work.old ≡ m }
    requires locators_below { Below F.Field.ops.order locators.now }
    requires array_below { Below F.Field.ops.order array.now }
    ensures value { Columns F.Field.ops m n locators.now array.now columns.new }
{
    // Stays: m may be 0, which chunks_exact does not take.
    for j in 0..n {
        let at = j * m;
        work.copy_from_slice(&array[at..at + m]);
        moments::<F>(&locators[at..at + m], work, &mut columns[at..at + m]);
    }
}

/// The h-th power sum of each strip.
/// A helper shared between crates: it asks for h below m, and room for the strips.
pub fn gather_row(m: usize, h: usize, columns: &[u8], row: &mut [u8])
    requires within { h < m }
    requires size { length row.old * m ≤ length columns.now }
    ensures value { Row m h columns.now row.new }
{
    for (j, sum) in row.iter_mut().enumerate() {
        *sum = columns[j * m + h];
    }
}

/// Puts the h-th power sum of each strip back in its place.
/// A helper shared between crates: it asks for h below m, and room for the strips.
pub fn scatter_row(m: usize, h: usize, row: &[u8], columns: &mut [u8])
    requires within { h < m }
    requires size { length row.now * m ≤ length columns.old }
    ensures value { Scattered m h (length row.now) row.now columns.old columns.new }
{
    for (j, sum) in row.iter().enumerate() {
        columns[j * m + h] = *sum;
    }
}

/// From each strip's power sums to its symbols.
/// A helper shared between crates: it asks for codes, locators that are all different, and n strips of m squares.
pub fn solve_strips<F: Field>(m: usize, n: usize, locators: &[u8], columns: &mut [u8])
    requires locators_size { length locators.now ≡ n * m }
    requires columns_size { length columns.old ≡ n * m }
    requires locators_below { Below F.Field.ops.order locators.now }
    requires columns_below { Below F.Field.ops.order columns.old }
    requires apart { Apart locators.now }
    ensures value { FilledIn F.Field.ops m n locators.now columns.old columns.new }
{
    // Stays: m may be 0, and after a loop over chunks_exact_mut a proof knows the columns' length alone.
    for j in 0..n {
        let at = j * m;
        solve::<F>(&locators[at..at + m], &mut columns[at..at + m]);
    }
}
