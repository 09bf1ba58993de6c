// The line of a frame: its strips in card characters, a space between each two.
ghost use Rattle.std.specs.Prelude.{◌≡◌, ◌+◌, ◌*◌, ◌<◌, ◌≤◌, length, OnOk, IfErr};
ghost use Rattle.refusal.specs.declared.Refusal.TheVariants.{BadSymbol};
ghost use Rattle.refusal.specs.Codes.{Below};
ghost use Rattle.medium.specs.Memory.{Beside};
ghost use Rattle.cardtext.specs.Text.{StandsFor, Stranger, Group, Text, line_size, ending as ending_of};

use card::{character_of, value_of};
use geometry::Geometry;
use refusal::Refusal;

// The symbols that the characters of a line stand for, refused if one is not in the alphabet. Asks for room for just these.
pub fn read_symbols(line: &[u8], symbols: &mut [u8]) -> Result<(), Refusal>
    requires { length symbols.old ≡ length line.now }
    ensures value { OnOk result (StandsFor line.now symbols.new) }
    ensures refused { IfErr result (λ e. (e ≡ BadSymbol) × Stranger line.now) }
{
    for (i, &byte) in line.iter().enumerate() {
        symbols[i] = value_of(byte).ok_or(Refusal::BadSymbol)?;
    }
    Ok(())
}

// What ends strip j of n.
fn ending(n: usize, j: usize) -> u8
    requires { j < n }
    ensures value { result ≡ ending_of n j }
{
    if j + 1 < n { b' ' } else { b'\n' }
}

// Writes the characters of a strip's squares and what ends them. Asks for one place more than there are squares.
fn write_strip(squares: &[u8], end: u8, out: &mut [u8])
    requires room { length out.old ≡ length squares.now + 1 }
    requires codes { Below 37 squares.now }
    ensures value { Group out.new 0 (length squares.now) squares.now 0 end }
{
    for (k, &code) in squares.iter().enumerate() {
        out[k] = character_of(code).unwrap();
    }
    out[squares.len()] = end;
}

// Writes the strips of an array. Asks for room, and for squares that have characters.
pub fn write_text(geometry: &Geometry, squares: &[u8], out: &mut [u8])
    requires room { line_size geometry.now.squares geometry.now.strips ≤ length out.old }
    requires size { length squares.now ≡ geometry.now.strips * geometry.now.squares }
    requires codes { Below 37 squares.now }
    ensures value { Text geometry.now.squares geometry.now.strips squares.now out.new geometry.now.strips }
    ensures same { Beside out.old out.new 0 (line_size geometry.now.squares geometry.now.strips) }
{
    let width = geometry.squares() + 1;
    for (j, strip) in squares.chunks_exact(geometry.squares()).enumerate() {
        write_strip(
            strip,
            ending(geometry.strips(), j),
            &mut out[j * width..(j + 1) * width],
        );
    }
}
