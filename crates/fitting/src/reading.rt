// What is shown of a frame, and how it is read.
ghost use Rattle.std.specs.Prelude.{◌≡◌, ◌*◌, ◌/◌, ◌<◌, ◌≤◌, not, ◌&&◌, length};
ghost use Rattle.algebra.specs.Showings.{gone_strips, doubtful_squares, doubt};
ghost use Rattle.fitting.specs.Lengths.{OfSize};
ghost use Rattle.fitting.specs.Decision.{Weighed};

use crate::comparison::Comparison;
use crate::counts::{Counts, count_doubtful, count_marked};
use field::Field;
use geometry::Geometry;
use refusal::Refusal;

/// What is shown of one frame, of any lengths.
// Stays: marks are bytes since callers have them so, and any byte but 0 is a mark.
#[derive(Clone, Copy, PartialEq, Eq, Debug)]
pub struct Shown<'a> {
    /// The code of each square.
    pub codes: &'a [u8],
    /// A mark for each strip: the strip is gone if it is not 0.
    pub strip_marks: &'a [u8],
    /// A mark for each square: the square is doubtful if it is not 0.
    pub square_marks: &'a [u8],
}

impl<'a> Shown<'a> {
    ghost use Rattle.algebra.specs.Showings.{differs, reading};
    ghost use Rattle.fitting.specs.Lengths.{Sized};
    ghost use Rattle.fitting.specs.Marks.{shown_by};

    // Whether a field of this order cannot tell a square, where its strip is not gone.
    // Stays: the bound of an index, here and in the next two, as a slice asks for it.
    pub(crate) fn is_unsure(&self, order: usize, square: usize) -> bool
        requires codes { square < length self.now.codes.now }
        requires marks { square < length self.now.square_marks.now }
        ensures { result ≡ (reading order (shown_by self.now.codes.now self.now.strip_marks.now self.now.square_marks.now)).doubtful square }
    {
        self.square_marks[square] != 0 || usize::from(self.codes[square]) >= order
    }

    // Whether a square counts, as one of a strip that is not gone, and is doubtful.
    pub(crate) fn is_doubtful(&self, order: usize, squares: usize, square: usize) -> bool
        requires sized { Sized squares self.now.codes.now self.now.strip_marks.now self.now.square_marks.now }
        requires there { square < length self.now.codes.now }
        ensures { result ≡ doubt squares (reading order (shown_by self.now.codes.now self.now.strip_marks.now self.now.square_marks.now)) square }
    {
        // most squares are told without finding their strip, for which a division is made
        self.is_unsure(order, square) && self.strip_marks[square / squares] == 0
    }

    // Whether a square is clear, and a frame has another code there.
    pub(crate) fn is_changed(
        &self,
        order: usize,
        squares: usize,
        frame: &[u8],
        square: usize,
    ) -> bool
        requires sized { Sized squares self.now.codes.now self.now.strip_marks.now self.now.square_marks.now }
        requires whole { length frame.now ≡ length self.now.codes.now }
        requires there { square < length self.now.codes.now }
        ensures { result ≡ differs squares (reading order (shown_by self.now.codes.now self.now.strip_marks.now self.now.square_marks.now)) frame.now square }
    {
        frame[square] != self.codes[square]
            && self.strip_marks[square / squares] == 0
            && !self.is_unsure(order, square)
    }
}

/// What is shown of a frame of a geometry, read by a field of its order.
#[derive(Clone, Copy, PartialEq, Eq, Debug)]
pub struct Reading<'a> {
    geometry: Geometry,
    shown: Shown<'a>,
    ghost narrow: { geometry.order ≤ 256 },
    ghost sized: { OfSize geometry.squares geometry.strips shown.codes.now shown.strip_marks.now shown.square_marks.now },
}

impl<'a> Reading<'a> {
    ghost use Rattle.fitting.specs.Reading.{Reads, showing_of};

    /// Reads what is shown, which is refused if the field is not the geometry's, or a length is not.
    pub fn new<F: Field>(geometry: &Geometry, shown: Shown<'a>) -> Result<Self, Refusal>
        ensures { Reads F.Field.ops.order geometry.now shown.entry result }
    {
        if geometry.order() != usize::from(F::ORDER) {
            return Err(Refusal::Unsuited);
        }
        let size = geometry.frame_size();
        if shown.codes.len() != size
            || shown.strip_marks.len() != geometry.strips()
            || shown.square_marks.len() != size
        {
            return Err(Refusal::WrongLength);
        }
        Ok(Reading::of(geometry, shown))
    }

    /// Reads what is shown by a field of the geometry's order, whether there is such a field or not.
    /// A helper shared between crates: it asks for an order that codes of a byte have, and for the lengths of the geometry.
    pub fn of(geometry: &Geometry, shown: Shown<'a>) -> Self
        requires order { geometry.now.order ≤ 256 }
        requires sizes { OfSize geometry.now.squares geometry.now.strips shown.codes.now shown.strip_marks.now shown.square_marks.now }
        ensures geometry { result.geometry ≡ geometry.now }
        ensures shown { result.shown ≡ shown.entry }
    {
        Reading {
            geometry: *geometry,
            shown,
        }
    }

    /// The geometry of the frame.
    pub fn geometry(&self) -> &Geometry
        ensures { result.now ≡ self.now.geometry }
    {
        &self.geometry
    }

    /// What is shown.
    pub fn shown(&self) -> &Shown<'a>
        ensures { result.now ≡ self.now.shown }
    {
        &self.shown
    }

    // Stays: the bound of an index, as a slice asks for it; a type of bounded squares would move the test to each caller.
    /// The code that a square shows.
    /// A helper shared between crates: it asks for a square of the frame.
    pub fn code(&self, square: usize) -> u8
        requires { square < self.now.geometry.strips * self.now.geometry.squares }
        ensures { result ≡ (showing_of self.now).shown square }
    {
        self.shown.codes[square]
    }

    /// Whether a strip is gone.
    /// A helper shared between crates: it asks for a strip of the frame.
    pub fn is_gone(&self, strip: usize) -> bool
        requires { strip < self.now.geometry.strips }
        ensures { result ≡ (showing_of self.now).gone strip }
    {
        self.shown.strip_marks[strip] != 0
    }

    // Whether a square is doubtful where its strip is not gone.
    fn is_unsure(&self, square: usize) -> bool
        requires { square < self.now.geometry.strips * self.now.geometry.squares }
        ensures { result ≡ (showing_of self.now).doubtful square }
    {
        self.shown.is_unsure(self.geometry.order(), square)
    }

    /// Whether a square counts, as one of a strip that is not gone, and is doubtful.
    /// A helper shared between crates: it asks for a square of the frame.
    pub fn is_doubtful(&self, square: usize) -> bool
        requires { square < self.now.geometry.strips * self.now.geometry.squares }
        ensures { result ≡ doubt self.now.geometry.squares (showing_of self.now) square }
    {
        let geometry = &self.geometry;
        self.shown
            .is_doubtful(geometry.order(), geometry.squares(), square)
    }

    /// Whether a square counts, as one of a strip that is not gone, and shows its code clearly.
    /// A helper shared between crates: it asks for a square of the frame.
    pub fn is_clear(&self, square: usize) -> bool
        requires { square < self.now.geometry.strips * self.now.geometry.squares }
        ensures { result ≡ (not ((showing_of self.now).gone (square / self.now.geometry.squares)) && not ((showing_of self.now).doubtful square)) }
    {
        !self.is_gone(square / self.geometry.squares()) && !self.is_unsure(square)
    }

    /// How many strips are gone.
    pub fn count_gone(&self) -> usize
        ensures { result ≡ gone_strips self.now.geometry.strips (showing_of self.now) }
    {
        count_marked(self.shown.strip_marks)
    }

    /// How many squares are doubtful.
    pub fn count_doubtful(&self) -> usize
        ensures { result ≡ doubtful_squares self.now.geometry.squares self.now.geometry.strips (showing_of self.now) }
    {
        count_doubtful(self.geometry.order(), self.geometry.squares(), self.shown)
    }

    /// The counts if a frame fits what is shown with at most `limit` silent squares, and `None` if it does not.
    /// A helper shared between crates: it asks for a frame of the geometry's size.
    pub fn weigh(&self, limit: usize, frame: &[u8]) -> Option<Counts>
        requires { length frame.now ≡ self.now.geometry.strips * self.now.geometry.squares }
        ensures { Weighed limit self.now.geometry.squares self.now.geometry.strips self.now.geometry.checks (showing_of self.now) frame.now result }
    {
        Comparison::new(*self, frame).weigh(limit)
    }
}
