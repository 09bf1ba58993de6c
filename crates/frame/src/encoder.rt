// The frame of a record.
ghost use Rattle.std.specs.Prelude.{◌≡◌, ℕ, ◌+◌, ◌-◌, ◌*◌, ◌<◌, ◌≤◌, List, length, Ok, Err, slice_index};
ghost use Rattle.refusal.specs.Codes.{Below};
ghost use Rattle.laws.specs.Ops.{Ops, Laws};
ghost use Rattle.algebra.specs.Frames.{IsRecord, FrameOf};
ghost use Rattle.solver.specs.Sums.{Apart};
ghost use Rattle.frame.specs.Encodes.{Encodes};
ghost use Rattle.frame.specs.Tables.{CheckColumns, CheckStrips, Completed};

use crate::locators::Locators;
use crate::table::{scatter_row, solve_strips};
use field::Field;
use geometry::Geometry;
use refusal::Refusal;
use solver::solve;

// Turns the sign of each symbol.
fn negate<F: Field>(sums: &mut [u8])
    ensures { (i : ℕ) → i < length sums.old → slice_index sums.new i ≡ F.Field.ops.neg (slice_index sums.old i) }
{
    for sum in sums.iter_mut() {
        *sum = F::neg(*sum);
    }
}

// The power sums that the check strips must have for every check sum of the frame to be 0.
// Stays: that locators are codes, all different, is asked of a list and of parts of it; a type of both would be made anew at each cut.
fn check_columns<F: Field>(m: usize, locators: &[u8], table: &[u8], columns: &mut [u8])
    requires table_size { length table.now ≡ m * length locators.now }
    requires columns_size { length columns.old ≡ length locators.now * m }
    requires some { 0 < length locators.now }
    requires narrow { length locators.now ≤ 256 }
    requires below { Below F.Field.ops.order locators.now }
    requires apart { Apart locators.now }
    ensures value { CheckColumns F.Field.ops m m locators.now table.now columns.new }
{
    let mut values = [0; 256];
    let values = &mut values[..locators.len()];
    for (h, sums) in table.chunks_exact(locators.len()).enumerate() {
        values.copy_from_slice(sums);
        negate::<F>(values);
        solve::<F>(locators, values);
        scatter_row(m, h, values, columns);
    }
}

// The symbols of the check strips, by the check sums of the strips before them.
fn fill_checks<F: Field>(
    m: usize,
    locators: &[u8],
    square_locators: &[u8],
    table: &[u8],
    strips: &mut [u8],
)
    requires squares_size { length square_locators.now ≡ length locators.now * m }
    requires table_size { length table.now ≡ m * length locators.now }
    requires strips_size { length strips.old ≡ length locators.now * m }
    requires some { 0 < length locators.now }
    requires narrow { length locators.now ≤ 256 }
    requires below { Below F.Field.ops.order locators.now }
    requires apart { Apart locators.now }
    requires squares_below { Below F.Field.ops.order square_locators.now }
    requires squares_apart { Apart square_locators.now }
    ensures value { CheckStrips F.Field.ops m locators.now square_locators.now table.now strips.new }
{
    check_columns::<F>(m, locators, table, strips);
    solve_strips::<F>(m, locators.len(), square_locators, strips);
}

// Fills the check strips of an array in which they are 0, by the check sums of the strips before them.
// Stays: a geometry of the field as a type would be made by a test that each caller has done.
fn complete<F: Field>(geometry: &Geometry, frame: &mut [u8])
    requires field { geometry.now.order ≡ F.Field.ops.order }
    requires size { length frame.old ≡ geometry.now.strips * geometry.now.squares }
    requires below { Below F.Field.ops.order frame.old }
    requires blank { (p : ℕ) → (geometry.now.strips - geometry.now.checks) * geometry.now.squares ≤ p → slice_index frame.old p ≡ 0 }
    ensures value { Completed F.Field.ops geometry.now.squares geometry.now.strips geometry.now.checks (geometry.now.strips - geometry.now.checks) frame.old frame.new }
{
    let m = geometry.squares();
    let c = geometry.checks();
    let locators = Locators::<F>::new();
    let strips = locators.first(geometry.strips());
    let squares = locators.first(geometry.frame_size());
    let mut table = [0; 256];
    let table = &mut table[..m * c];
    locators.check_sums(geometry, frame, table);
    let record = geometry.record_size();
    fill_checks::<F>(
        m,
        &strips[geometry.strips() - c..],
        &squares[record..],
        table,
        &mut frame[record..],
    );
}

// The symbols, and then zeros.
fn begin(symbols: &[u8], frame: &mut [u8])
    requires { length symbols.now ≤ length frame.old }
    ensures { (p : ℕ) → p < length frame.old → slice_index frame.new p ≡ slice_index symbols.now p }
{
    let (record, checks) = frame.split_at_mut(symbols.len());
    record.copy_from_slice(symbols);
    checks.fill(0);
}

// The frame of a record whose symbols are codes.
fn write<F: Field>(geometry: &Geometry, symbols: &[u8], frame: &mut [u8])
    requires field { geometry.now.order ≡ F.Field.ops.order }
    requires written { IsRecord F.Field.ops geometry.now.squares geometry.now.strips geometry.now.checks symbols.now }
    requires size { length frame.old ≡ geometry.now.strips * geometry.now.squares }
    ensures frame { FrameOf F.Field.ops geometry.now.squares geometry.now.strips geometry.now.checks symbols.now frame.new }
{
    begin(symbols, frame);
    complete::<F>(geometry, frame);
}

/// Fills the buffer with the frame of a record: the one frame that begins with it.
pub fn encode<F: Field>(
    geometry: &Geometry,
    symbols: &[u8],
    frame: &mut [u8],
) -> Result<(), Refusal>
    ensures value { Encodes F.Field.ops geometry.now symbols.now frame.old result frame.new }
    ensures only { result ≡ Ok tt → (xs : List ℕ) → FrameOf F.Field.ops geometry.now.squares geometry.now.strips geometry.now.checks symbols.now xs → xs ≡ frame.new }
{
    if geometry.order() != usize::from(F::ORDER) {
        return Err(Refusal::Unsuited);
    }
    if symbols.len() != geometry.record_size() || frame.len() != geometry.frame_size() {
        return Err(Refusal::WrongLength);
    }
    if !symbols.iter().all(|symbol| u16::from(*symbol) < F::ORDER) {
        return Err(Refusal::BadSymbol);
    }
    write::<F>(geometry, symbols, frame);
    Ok(())
}
