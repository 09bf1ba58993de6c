// From the line of a record to the line of its frame.
ghost use Rattle.std.specs.Prelude.{◌≤◌, IfOk};
ghost use Rattle.cardtext.specs.Text.{FramesLine, longest};

use crate::text::{read_symbols, write_text};
use field::Mod37;
use frame::encode;
use geometry::Geometry;
use refusal::Refusal;

/// The length of the buffer that `frame_line` takes: over 37 codes no line is longer.
pub const LINE: usize = 80;

// No frame over 37 codes has more squares.
const SQUARES: usize = 36;

/// Turns a line of card characters, a record, into the line of its frame at the front of the buffer, and answers its length.
pub fn frame_line(geometry: &Geometry, line: &[u8], out: &mut [u8]) -> Result<usize, Refusal>
    ensures value { FramesLine geometry.now line.now out.old result out.new }
    ensures below { IfOk result (λ n. n ≤ longest) }
{
    if geometry.order() != 37 {
        return Err(Refusal::Unsuited);
    }
    if line.len() != geometry.record_size() || out.len() != LINE {
        return Err(Refusal::WrongLength);
    }
    let mut symbols = [0; SQUARES];
    let symbols = &mut symbols[..geometry.record_size()];
    read_symbols(line, symbols)?;
    let mut squares = [0; SQUARES];
    let squares = &mut squares[..geometry.frame_size()];
    encode::<Mod37>(geometry, symbols, squares)?;
    write_text(geometry, squares, out);
    Ok(geometry.strips() * (geometry.squares() + 1))
}
