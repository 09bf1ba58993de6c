// The search: no silent square first, then each clear square in turn.
ghost use Rattle.std.specs.Prelude.{◌≡◌, ◌+◌, ◌*◌, ◌<◌, true, [], ◌∷◌, ◌++◌, length, MatchOption};
ghost use Rattle.laws.specs.Ops.{Ops, Laws};
ghost use Rattle.fitting.specs.Marks.{silent_limit};
ghost use Rattle.fitting.specs.Reading.{showing_of};
ghost use Rattle.correction.specs.Tries.{clear, Missed};
ghost use Rattle.attempts.specs.Attempts.{HitBy, Searched, Answered, Summed, Ready};

use crate::attempt::{Fit, attempt};
use crate::reading::{list_doubtful, mark_gone, read_out};
use crate::start::Start;
use candidates::Site;
use field::Field;
use fitting::Reading;
use frame::Locators;

// Stays: the list and one more, as a slice for `candidate`; a vector of fixed room would be copied just so.
// Some squares, and one more.
fn add_square(squares: &[u8], square: u8, all: &mut [u8])
    requires { length all.old ≡ length squares.now + 1 }
    ensures { all.new ≡ squares.now ++ square ∷ [] }
{
    let d = squares.len();
    all[..d].copy_from_slice(squares);
    all[d] = square;
}

// An attempt with one clear square more taken for doubtful.
fn try_square<F: Field>(start: &Start<F>, square: usize) -> Option<Fit>
    requires room { length start.now.doubtful.now < start.now.reading.now.geometry.squares }
    requires there { square < start.now.reading.now.geometry.strips * start.now.reading.now.geometry.squares }
    requires sure { clear start.now.reading.now.geometry.squares (showing_of start.now.reading.now) square ≡ true }
    ensures { let g = start.now.reading.now.geometry in MatchOption result (Missed F.Field.ops silent_limit g.squares g.strips g.checks (showing_of start.now.reading.now) start.now.base.now square) (HitBy F.Field.ops silent_limit g.squares g.strips g.checks (showing_of start.now.reading.now)) }
{
    let mut squares = [0; 256];
    let squares = &mut squares[..start.doubtful.len() + 1];
    add_square(start.doubtful, square as u8, squares);
    attempt(start, squares)
}

// A fitting frame with the first clear square that one is found with.
fn search_silent<F: Field>(start: &Start<F>) -> Option<Fit>
    requires { length start.now.doubtful.now < start.now.reading.now.geometry.squares }
    ensures { let g = start.now.reading.now.geometry in Searched F.Field.ops silent_limit g.squares g.strips g.checks (showing_of start.now.reading.now) start.now.base.now (g.strips * g.squares) result }
{
    let size = start.reading.geometry().frame_size();
    let mut found = None;
    // Stays: squares are numbered and no slice is read here; the search is left by its label, as docs/DECISIONS.md says.
    'search: for square in 0..size {
        if start.reading.is_clear(square) {
            found = try_square(start, square);
            if found.is_some() {
                break 'search;
            }
        }
    }
    found
}

// The frame that fits: with no silent square, or with one.
fn search<F: Field>(start: &Start<F>) -> Option<Fit>
    ensures { let g = start.now.reading.now.geometry in Answered F.Field.ops silent_limit g.squares g.strips g.checks (showing_of start.now.reading.now) result }
{
    let found = attempt(start, start.doubtful);
    if found.is_some() || start.reading.geometry().squares() - start.doubtful.len() < 2 {
        return found;
    }
    search_silent(start)
}

/// The frame that fits what is shown, from the check sums of the clear codes (0 elsewhere).
/// A helper shared between crates: it asks for the geometry's field, not too many gone strips or doubtful squares, and the check
/// sums of what is read.
pub fn find<F: Field>(reading: &Reading, checks: &[u8]) -> Option<Fit>
    requires ready { Ready F.Field.ops reading.now }
    requires summed { let g = reading.now.geometry in Summed F.Field.ops g.squares g.strips g.checks (showing_of reading.now) checks.now }
    ensures { let g = reading.now.geometry in Answered F.Field.ops silent_limit g.squares g.strips g.checks (showing_of reading.now) result }
{
    let geometry = reading.geometry();
    let locators = Locators::<F>::new();
    let mut gone = [false; 256];
    let gone = &mut gone[..geometry.strips()];
    mark_gone(reading, gone);
    let mut base = [0; 256];
    let base = &mut base[..geometry.frame_size()];
    read_out(geometry.order(), geometry.squares(), *reading.shown(), base);
    let mut doubtful = [0; 256];
    let doubtful = &mut doubtful[..reading.count_doubtful()];
    list_doubtful(reading, doubtful);
    search(&Start {
        reading,
        site: Site {
            geometry,
            locators: &locators,
            gone,
        },
        base,
        checks,
        doubtful,
    })
}
