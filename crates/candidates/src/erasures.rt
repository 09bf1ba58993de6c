// Doubtful squares, one by one: each error from the check sums peeled by the squares that are still ahead.
ghost use Rattle.std.specs.Prelude.{◌≡◌, Bool, false, List, ◌∷◌, ℕ, ◌+◌, ◌*◌, ◌/◌, ◌<◌, ◌≤◌, length, get_or};
ghost use Rattle.refusal.specs.Codes.{Below};
ghost use Rattle.laws.specs.Ops.{Ops, Laws, less};
ghost use Rattle.algebra.specs.Frames.{square_locator};
ghost use Rattle.solver.specs.Sums.{marked, fold_of};
ghost use Rattle.correction.specs.Nearing.{gaps};
ghost use Rattle.candidates.specs.Chosen.{Chosen, NearAt, HeldAt};

use crate::site::Site;
use field::Field;
use solver::{fold, row_errors, take_out};

// The locators of squares.
fn locate<F: Field>(site: &Site<F>, squares: &[u8], points: &mut [u8])
    requires { length points.old ≡ length squares.now }
    ensures { (i : ℕ) → i < length squares.now → get_or points.new i 0 ≡ square_locator F.Field.ops (get_or squares.now i 0) }
{
    for (i, point) in points.iter_mut().enumerate() {
        *point = site.locator(usize::from(squares[i]));
    }
}

// One sum of each column of the table, peeled by the points.
fn peel_rows<F: Field>(table: &[u8], c: usize, points: &[u8], sums: &mut [u8])
    requires size { length points.now * c + length sums.old ≤ length table.now }
    requires room { length points.now < 256 }
    ensures { (i : ℕ) → i < length sums.old → get_or sums.new i 0 ≡ fold_of F.Field.ops points.now (λ h. get_or table.now (h * c + i) 0) (length points.now) 0 }
{
    let mut work = [0; 256];
    for (i, sum) in sums.iter_mut().enumerate() {
        *sum = fold::<F>(table, c, i, points, &mut work);
    }
}

// The product of x minus each point.
fn gap<F: Field>(x: u8, points: &[u8]) -> u8
    ensures { result ≡ gaps F.Field.ops points.now x (length points.now) }
{
    let mut product = 1;
    for point in points {
        product = F::mul(F::sub(x, *point), product);
    }
    product
}

// The error of a square, if its strip is neither gone nor wrong, with the squares ahead of it still to come. Its strip counts as
// erased: the row decoder then finds what is left of the strip when the squares ahead are peeled away, and that is the square's
// error alone.
fn error_at<F: Field>(site: &Site<F>, square: usize, ahead: &[u8], table: &[u8]) -> u8
    requires chosen { Chosen site.now.geometry.now.squares site.now.geometry.now.strips (square ∷ ahead.now) }
    requires size { length table.now ≡ site.now.geometry.now.squares * site.now.geometry.now.checks }
    requires codes { Below F.Field.ops.order table.now }
    ensures below { result < F.Field.ops.order }
    ensures value { (xs : List ℕ) → HeldAt F.Field.ops site.now.geometry.now xs table.now → (wrong : ℕ → Bool) (ys : List ℕ) → NearAt F.Field.ops site.now.geometry.now site.now.gone.now wrong (square ∷ ahead.now) xs ys → marked site.now.gone.now (square / site.now.geometry.now.squares) ≡ false → wrong (square / site.now.geometry.now.squares) ≡ false → result ≡ less F.Field.ops (get_or xs square 0) (get_or ys square 0) }
{
    let n = site.geometry.strips();
    let c = site.geometry.checks();
    let strip = square / site.geometry.squares();
    let mut points = [0; 256];
    let points = &mut points[..ahead.len()];
    locate(site, ahead, points);
    let mut sums = [0; 256];
    let sums = &mut sums[..c];
    peel_rows::<F>(table, c, points, sums);
    let mut erased = [false; 256];
    let erased = &mut erased[..n];
    erased.copy_from_slice(site.gone);
    erased[strip] = true;
    let mut row = [0; 256];
    let row = &mut row[..n];
    row_errors::<F>(site.locators.first(n), sums, erased, row);
    F::mul(row[strip], F::inv(gap::<F>(site.locator(square), points)))
}

// Takes the error of a square out of the array and of its table.
// Stays: a struct of both would hold a `&mut` beside a ghost field, which a check does not cover.
pub fn erase_one<F: Field>(
    site: &Site<F>,
    square: usize,
    ahead: &[u8],
    array: &mut [u8],
    table: &mut [u8],
)
    requires chosen { Chosen site.now.geometry.now.squares site.now.geometry.now.strips (square ∷ ahead.now) }
    requires held { HeldAt F.Field.ops site.now.geometry.now array.old table.old }
    ensures held { HeldAt F.Field.ops site.now.geometry.now array.new table.new }
    ensures nearer { (wrong : ℕ → Bool) (ys : List ℕ) → NearAt F.Field.ops site.now.geometry.now site.now.gone.now wrong (square ∷ ahead.now) array.old ys → NearAt F.Field.ops site.now.geometry.now site.now.gone.now wrong ahead.now array.new ys }
{
    let m = site.geometry.squares();
    let error = error_at(site, square, ahead, table);
    let symbol = &mut array[square];
    *symbol = F::sub(*symbol, error);
    take_out::<F>(
        table,
        m,
        site.geometry.checks(),
        error,
        site.locator(square / m),
        site.locator(square),
    );
}
