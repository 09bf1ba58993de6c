// Vandermonde systems: the weights of points from their power sums.
ghost use Rattle.std.specs.Prelude.{◌≡◌, ℕ, suc, ◌+◌, ◌-◌, ◌<◌, length, slice_index};
ghost use Rattle.laws.specs.Ops.{Ops, Laws, less, sum as sum_of};
ghost use Rattle.solver.specs.Sums.{found, Peeled, Solvable, Solved};

use field::Field;

/// Each value but the first has b times the one before it taken away.
pub fn peel<F: Field>(b: u8, values: &mut [u8])
    ensures { Peeled F.Field.ops b values.old values.new }
{
    if values.is_empty() {
        return;
    }
    let mut last = values[0];
    for x in values[1..].iter_mut() {
        let old = *x;
        *x = F::sub(old, F::mul(b, last));
        last = old;
    }
}

// From what the other points weigh in the peeled sums, what each point weighs.
pub fn unpeel<F: Field>(points: &[u8], values: &mut [u8])
    requires { (0 < length points.now) × (length values.old ≡ length points.now) }
    ensures rest { (t : ℕ) → suc t < length points.now → slice_index values.new (suc t) ≡ found F.Field.ops points.now values.old t }
    ensures first { slice_index values.new 0 ≡ less F.Field.ops (slice_index values.old 0) (sum_of F.Field.ops (length points.now - 1) (found F.Field.ops points.now values.old)) }
{
    let mut all = 0;
    for (t, x) in values[1..].iter_mut().enumerate() {
        *x = F::mul(*x, F::inv(F::sub(points[t + 1], points[0])));
        all = F::add(all, *x);
    }
    values[0] = F::sub(values[0], all);
}

/// The weights of the points whose sums are the values.
/// A helper shared between crates: it asks for codes, points that are all different, and as many values.
pub fn solve<F: Field>(points: &[u8], values: &mut [u8])
    requires { Solvable F.Field.ops points.now values.old }
    ensures { Solved F.Field.ops points.now values.old values.new }
{
    if !points.is_empty() {
        peel::<F>(points[0], values);
        solve::<F>(&points[1..], &mut values[1..]);
        unpeel::<F>(points, values);
    }
}
