// What every attempt needs of what is shown: the strips that are gone, the clear codes, the doubtful squares.
ghost use Rattle.std.specs.Prelude.{◌≡◌, ◌*◌, ◌<◌, length};
ghost use Rattle.refusal.specs.Codes.{Below};
ghost use Rattle.algebra.specs.Showings.{doubtful_squares};
ghost use Rattle.correction.specs.Tries.{Readout, Masked};
ghost use Rattle.fitting.specs.Reading.{showing_of};
ghost use Rattle.attempts.specs.Shown.{shows, Sized, doubtful_list};

use fitting::{Reading, Shown};

// Marks the strips that are gone.
pub fn mark_gone(reading: &Reading, gone: &mut [bool])
    requires { length gone.old ≡ reading.now.geometry.strips }
    ensures { Masked reading.now.geometry.strips (showing_of reading.now) gone.new }
{
    for (strip, mark) in gone.iter_mut().enumerate() {
        *mark = reading.is_gone(strip);
    }
}

/// The clear codes, and 0 elsewhere, of strips of `m` squares.
/// A helper shared between crates: it asks for codes and marks of whole strips, all fit to be places in a byte, and for an order
/// that is not 0.
pub fn read_out(order: usize, m: usize, shown: Shown, base: &mut [u8])
    requires sized { Sized m shown.codes.now shown.strip_marks.now shown.square_marks.now }
    requires size { length base.old ≡ length shown.codes.now }
    requires some { 0 < order }
    ensures value { Readout m (length shown.entry.strip_marks.now) (shows order shown.entry.codes.now shown.entry.strip_marks.now shown.entry.square_marks.now) base.new }
    ensures below { Below order base.new }
{
    let Shown {
        codes,
        strip_marks,
        square_marks,
    } = shown;
    for (square, symbol) in base.iter_mut().enumerate() {
        let code = codes[square];
        let here = strip_marks[square / m] == 0 && square_marks[square] == 0;
        *symbol = if here && usize::from(code) < order {
            code
        } else {
            0
        };
    }
}

// Stays: `candidate` takes a slice; a vector of fixed room would be filled by the same loop, and then read as one.
// Lists the doubtful squares, where there is room for just as many.
pub fn list_doubtful(reading: &Reading, squares: &mut [u8])
    requires { length squares.old ≡ doubtful_squares reading.now.geometry.squares reading.now.geometry.strips (showing_of reading.now) }
    ensures { squares.new ≡ doubtful_list reading.now.geometry.squares reading.now.geometry.strips (showing_of reading.now) }
{
    let size = reading.geometry().frame_size();
    let doubtful = (0..size).filter(|square| reading.is_doubtful(*square));
    for (rank, square) in doubtful.enumerate() {
        squares[rank] = square as u8;
    }
}
