// One row: the errors and erasures of a Reed–Solomon word, from its sums.
ghost use Rattle.std.specs.Prelude.{◌≡◌, ℕ, ◌+◌, ◌-◌, ◌<◌, ◌≤◌, Bool, true, List, length, if◌then◌else◌, slice_index};
ghost use Rattle.refusal.specs.Codes.{Below};
ghost use Rattle.laws.specs.Ops.{Ops, Laws};
ghost use Rattle.algebra.specs.Showings.{count};
ghost use Rattle.solver.specs.Sums.{marked, struck, value, Choice, Row, Word, Located, Restored};

use crate::key_equation::kernel;
use crate::vandermonde::{peel, solve};
use field::Field;

// Peels the values by each point that is gone, from the place on that is given back.
fn strike<F: Field>(points: &[u8], gone: &[bool], values: &mut [u8]) -> usize
    requires { (length gone.now ≡ length points.now) × (count (length points.now) (marked gone.now) ≤ length values.old) }
    ensures value { result ≡ count (length points.now) (marked gone.now) }
    ensures rest { (i : ℕ) → result + i < length values.old → slice_index values.new (result + i) ≡ struck F.Field.ops points.now gone.now values.old (length points.now) i }
{
    let mut k = 0;
    for (point, is_gone) in points.iter().zip(gone) {
        if *is_gone {
            peel::<F>(*point, &mut values[k..]);
            k += 1;
        }
    }
    k
}

// The sum of the weights times the powers of x.
fn evaluate<F: Field>(ws: &[u8], x: u8) -> u8
    ensures { result ≡ value F.Field.ops ws.now x 0 (length ws.now) }
{
    let mut all = 0;
    for w in ws.iter().rev() {
        all = F::add(*w, F::mul(x, all));
    }
    all
}

// Marks the places that are gone or whose point is a root.
fn choose<F: Field>(points: &[u8], gone: &[bool], ws: &[u8], mask: &mut [bool])
    requires { (length gone.now ≡ length points.now) × (length mask.old ≡ length points.now) }
    ensures { (j : ℕ) → j < length points.now → Choice F.Field.ops points.now gone.now ws.now (length ws.now) mask.new j }
{
    for (j, mark) in mask.iter_mut().enumerate() {
        *mark = gone[j] || evaluate::<F>(ws, points[j]) == 0;
    }
}

// The points that are marked, in their order.
fn gather(points: &[u8], mask: &[bool], out: &mut [u8]) -> usize
    requires { (length mask.now ≡ length points.now) × (count (length points.now) (marked mask.now) ≤ length out.old) }
    ensures value { result ≡ count (length points.now) (marked mask.now) }
    ensures picked { (j : ℕ) → j < length points.now → marked mask.now j ≡ true → slice_index out.new (count j (marked mask.now)) ≡ slice_index points.now j }
{
    let mut k = 0;
    for (point, mark) in points.iter().zip(mask) {
        if *mark {
            out[k] = *point;
            k += 1;
        }
    }
    k
}

// The values at the marked places, in their order, and 0 elsewhere.
fn scatter(mask: &[bool], values: &[u8], out: &mut [u8])
    requires { (length out.old ≡ length mask.now) × (count (length mask.now) (marked mask.now) ≤ length values.now) }
    ensures { (j : ℕ) → j < length mask.now → slice_index out.new j ≡ (if marked mask.now j then slice_index values.now (count j (marked mask.now)) else 0) }
{
    let mut k = 0;
    for (j, x) in out.iter_mut().enumerate() {
        if mask[j] {
            *x = values[k];
            k += 1;
        } else {
            *x = 0;
        }
    }
}

// Marks the places that are gone or may be wrong.
// Stays: other crates give row_errors points, sums and marks apart; a struct would be made there for two calls, each with its own marks.
fn locate<F: Field>(points: &[u8], sums: &[u8], gone: &[bool], mask: &mut [bool])
    requires { (Row F.Field.ops points.now sums.now gone.now) × (length mask.old ≡ length points.now) }
    ensures { Located F.Field.ops points.now sums.now gone.now mask.new }
{
    let mut sigma = [0; 256];
    let sigma = &mut sigma[..sums.len()];
    sigma.copy_from_slice(sums);
    let k = strike::<F>(points, gone, sigma);
    let t = (sums.len() - k) / 2;
    let ws = kernel::<F>(&sigma[k..], t);
    choose::<F>(points, gone, &ws[..t + 1], mask);
}

// The word that is zero but for the marked places and has the first sums.
fn restore<F: Field>(points: &[u8], sums: &[u8], mask: &[bool], out: &mut [u8])
    requires row { Row F.Field.ops points.now sums.now mask.now }
    requires size { length out.old ≡ length points.now }
    ensures { Restored F.Field.ops points.now sums.now mask.now out.new }
{
    let mut chosen = [0; 256];
    let r = gather(points, mask, &mut chosen);
    let mut values = [0; 256];
    let values = &mut values[..r];
    values.copy_from_slice(&sums[..r]);
    solve::<F>(&chosen[..r], values);
    scatter(mask, values, out);
}

/// The word with the sums that is zero but for the places that are gone and a few others, whichever it is.
/// A helper shared between crates: it asks for codes, at most 256 points that are all different, a mark and room for each,
/// and at most 255 sums, no fewer than are gone.
pub fn row_errors<F: Field>(points: &[u8], sums: &[u8], gone: &[bool], out: &mut [u8])
    requires { (Row F.Field.ops points.now sums.now gone.now) × (length out.old ≡ length points.now) }
    ensures below { Below F.Field.ops.order out.new }
    ensures is { (wrong : ℕ → Bool) (e : List ℕ) → Word F.Field.ops points.now sums.now gone.now wrong e → (j : ℕ) → j < length points.now → slice_index out.new j ≡ slice_index e j }
{
    let mut mask = [false; 256];
    let mask = &mut mask[..points.len()];
    locate::<F>(points, sums, gone, mask);
    restore::<F>(points, sums, mask, out);
}
