// Counts of what is wrong.
ghost use Rattle.std.specs.Prelude.{◌≡◌, length};
ghost use Rattle.algebra.specs.Showings.{count, reading, doubtful_squares, changed_squares};
ghost use Rattle.fitting.specs.Lengths.{Sized};
ghost use Rattle.fitting.specs.Marks.{marked, shown_by};

use crate::reading::Shown;

/// What was found wrong with what is shown of a frame.
#[derive(Clone, Copy, PartialEq, Eq, Debug)]
pub struct Counts {
    /// Strips that are gone.
    pub gone: usize,
    /// Doubtful squares in strips that are not gone.
    pub doubtful: usize,
    /// Clear squares of strips that are not gone where the frame has another code than is shown.
    pub changed: usize,
}

/// How many marks are not 0.
pub fn count_marked(marks: &[u8]) -> usize
    ensures { result ≡ count (length marks.now) (marked marks.now) }
{
    marks.iter().filter(|mark| **mark != 0).count()
}

/// How many squares are doubtful, in strips of so many, for a field of this order.
/// A helper shared between crates: it asks for the lengths of such strips.
pub fn count_doubtful(order: usize, squares: usize, shown: Shown) -> usize
    requires { Sized squares shown.codes.now shown.strip_marks.now shown.square_marks.now }
    ensures { result ≡ doubtful_squares squares (length shown.entry.strip_marks.now) (reading order (shown_by shown.entry.codes.now shown.entry.strip_marks.now shown.entry.square_marks.now)) }
{
    (0..shown.codes.len())
        .filter(|square| shown.is_doubtful(order, squares, *square))
        .count()
}

/// How many clear squares a frame has another code at than is shown, in strips of so many squares, for a field of this order.
/// A helper shared between crates: it asks for the lengths of such strips.
pub fn count_changed(order: usize, squares: usize, shown: Shown, frame: &[u8]) -> usize
    requires sized { Sized squares shown.codes.now shown.strip_marks.now shown.square_marks.now }
    requires whole { length frame.now ≡ length shown.codes.now }
    ensures { result ≡ changed_squares squares (length shown.entry.strip_marks.now) (reading order (shown_by shown.entry.codes.now shown.entry.strip_marks.now shown.entry.square_marks.now)) frame.now }
{
    (0..shown.codes.len())
        .filter(|square| shown.is_changed(order, squares, frame, *square))
        .count()
}
