// Powers of a code, and power sums of weighted points.
ghost use Rattle.std.specs.Prelude.{◌≡◌, ℕ, ◌<◌, length, slice_index};
ghost use Rattle.refusal.specs.Codes.{Below};
ghost use Rattle.laws.specs.Ops.{Ops, Laws, sum as sum_of};
ghost use Rattle.frame.specs.Tables.{Powers, Moments};

use field::Field;

/// The powers of a code, from exponent 0 on, as many as there is room for.
pub fn powers<F: Field>(x: u8, out: &mut [u8])
    ensures value { Powers F.Field.ops x out.new }
{
    let mut p = 1;
    for power in out.iter_mut() {
        *power = p;
        p = F::mul(x, p);
    }
}

// The sum of the weights; each weight then has its point as one factor more.
fn turn<F: Field>(points: &[u8], weights: &mut [u8]) -> u8
    requires { length weights.old ≡ length points.now }
    ensures total { result ≡ sum_of F.Field.ops (length points.now) (λ t. slice_index weights.old t) }
    ensures raised { (t : ℕ) → t < length points.now → slice_index weights.new t ≡ F.Field.ops.mul (slice_index weights.old t) (slice_index points.now t) }
{
    let mut total = 0;
    for (t, weight) in weights.iter_mut().enumerate() {
        let x = *weight;
        total = F::add(total, x);
        *weight = F::mul(x, points[t]);
    }
    total
}

/// The power sums of weighted points, from exponent 0 on, as many as there is room for. Uses the weights up.
/// A helper shared between crates: it asks for codes, and as many weights as points.
pub fn moments<F: Field>(points: &[u8], weights: &mut [u8], out: &mut [u8])
    requires size { length weights.old ≡ length points.now }
    requires points { Below F.Field.ops.order points.now }
    requires weights { Below F.Field.ops.order weights.old }
    ensures value { Moments F.Field.ops points.now weights.old out.new }
{
    for sum in out.iter_mut() {
        *sum = turn::<F>(points, weights);
    }
}
