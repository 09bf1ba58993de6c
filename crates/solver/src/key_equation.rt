// The key equation: a nonzero vector in the kernel of the matrix of shifted sums.
ghost use Rattle.std.specs.Prelude.{◌≡◌, ◌+◌, ◌-◌, ◌*◌, ◌<◌, ◌≤◌, length};
ghost use Rattle.refusal.specs.Codes.{Below};
ghost use Rattle.laws.specs.Ops.{Ops, Laws, less};
ghost use Rattle.solver.specs.Sums.{shifted, weighed, Kernel, Filled, combined};

use field::Field;

// The entry k places below u, or 0.
fn slid(xs: &[u8; 128], k: usize, u: usize) -> u8
    requires { u < 128 }
    ensures { result ≡ shifted k xs.now u }
{
    if u < k { 0 } else { xs[u - k] }
}

// The first n weights xs, slid up by ka, less d times the weights ws, slid up by kb.
// Stays: weights are slid by places and are 0 beyond them; a vector of fixed room would have to be filled with zeros first.
fn combine<F: Field>(
    n: usize,
    xs: &[u8; 128],
    ka: usize,
    d: u8,
    ws: &[u8; 128],
    kb: usize,
) -> [u8; 128]
    requires { n ≤ 128 }
    ensures { Filled (combined F.Field.ops ka kb d xs.now ws.now) n result }
{
    let mut out = [0; 128];
    for (u, x) in out[..n].iter_mut().enumerate() {
        *x = F::sub(slid(xs, ka, u), F::mul(d, slid(ws, kb, u)));
    }
    out
}

// The weighed sum of the first values.
fn weigh<F: Field>(ws: &[u8], xs: &[u8]) -> u8
    requires { length ws.now ≤ length xs.now }
    ensures { result ≡ weighed F.Field.ops (length ws.now) ws.now xs.now 0 }
{
    let mut all = 0;
    for (w, x) in ws.iter().zip(xs) {
        all = F::add(all, F::mul(*w, *x));
    }
    all
}

/// Weights, not all zero, that take the values to zero: the shortest way to go on from the first ones.
/// A helper shared between crates: it asks for codes, at least 2 t of them, and t below 128.
pub fn kernel<F: Field>(values: &[u8], t: usize) -> [u8; 128]
    requires { (t < 128) × ((2 * t ≤ length values.now) × (Below F.Field.ops.order values.now)) }
    ensures { Kernel F.Field.ops t values.now result }
{
    let n = t + 1;
    let mut ws = [0; 128];
    ws[0] = 1;
    // The weights before they last grew, and the inverse of what those left over.
    let mut gs = [0; 128];
    let mut b = 1;
    let mut l = 0;
    let mut r = 0;
    // Stays: r goes back to l where the weights grow, so it counts no range.
    while r < t {
        let d = weigh::<F>(&ws[..l + 1], &values[r..]);
        if d == 0 {
            r += 1;
        } else if r < l {
            ws = combine::<F>(n, &ws, 0, F::mul(d, b), &gs, l - r - 1);
            r += 1;
        } else {
            let next = combine::<F>(n, &ws, r + 1 - l, F::mul(d, b), &gs, 0);
            gs = ws;
            ws = next;
            b = F::inv(d);
            (l, r) = (r + 1, l);
        }
    }
    ws
}
