// Tables of sums: a symbol taken out, and rows peeled.
ghost use Rattle.std.specs.Prelude.{◌≡◌, ◌+◌, ◌*◌, ◌<◌, length, slice_index};
ghost use Rattle.laws.specs.Ops.{Ops, Laws};
ghost use Rattle.solver.specs.Sums.{TakenRow, Taken, fold_of};

use crate::vandermonde::peel;
use field::Field;

// Takes x times the powers of a away from a row.
fn take_row<F: Field>(row: &mut [u8], x: u8, a: u8)
    ensures { TakenRow F.Field.ops x a (length row.old) row.old row.new }
{
    let mut p = 1;
    for sum in row.iter_mut() {
        *sum = F::sub(*sum, F::mul(x, p));
        p = F::mul(a, p);
    }
}

/// Takes x times the powers of a and of b away from a table of m rows of c.
/// A helper shared between crates: it asks for a table of that size.
// Stays: a table with its two numbers and three numbers of a symbol, which go together in this call alone.
pub fn take_out<F: Field>(table: &mut [u8], m: usize, c: usize, x: u8, a: u8, b: u8)
    requires { length table.old ≡ m * c }
    ensures { Taken F.Field.ops x a b c m table.old table.new }
{
    let mut p = 1;
    // Stays: c may be 0, and after a loop over chunks_exact_mut a proof knows the table's length alone.
    for h in 0..m {
        take_row::<F>(&mut table[h * c..h * c + c], F::mul(x, p), a);
        p = F::mul(b, p);
    }
}

/// The sums at i of the rows of a table, peeled by the points, with room to peel in.
/// A helper shared between crates: it asks for one row more than points, and as much room.
pub fn fold<F: Field>(table: &[u8], c: usize, i: usize, points: &[u8], work: &mut [u8]) -> u8
    requires { (length points.now * c + i < length table.now) × (length points.now < length work.old) }
    ensures { result ≡ fold_of F.Field.ops points.now (λ h. slice_index table.now (h * c + i)) (length points.now) 0 }
{
    let n = points.len();
    let work = &mut work[..n + 1];
    for (h, sum) in work.iter_mut().enumerate() {
        *sum = table[h * c + i];
    }
    for (k, point) in points.iter().enumerate() {
        peel::<F>(*point, &mut work[k..]);
    }
    work[n]
}
