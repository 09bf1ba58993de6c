// A frame against what is read of it.
ghost use Rattle.std.specs.Prelude.{◌≡◌, ◌+◌, ◌-◌, ◌*◌, ◌<◌, ◌≤◌, length, nat_eq};
ghost use Rattle.algebra.specs.Showings.{changed_squares, count, differs};
ghost use Rattle.fitting.specs.Reading.{showing_of};
ghost use Rattle.fitting.specs.Wrong.{Fewest, changes};
ghost use Rattle.fitting.specs.Decision.{Weighed};

use crate::counts::{Counts, count_changed};
use crate::reading::Reading;
use std::ops::Range;

/// A frame against what is read of it.
#[derive(Clone, Copy, PartialEq, Eq, Debug)]
pub struct Comparison<'a> {
    reading: Reading<'a>,
    frame: &'a [u8],
    ghost whole: { length frame.now ≡ reading.geometry.strips * reading.geometry.squares },
}

impl<'a> Comparison<'a> {
    /// A helper shared between crates: it asks for a frame of the geometry's size.
    pub fn new(reading: Reading<'a>, frame: &'a [u8]) -> Self
        requires { length frame.now ≡ reading.geometry.strips * reading.geometry.squares }
        ensures reading { result.reading ≡ reading.entry }
        ensures frame { result.frame ≡ frame.entry }
    {
        Comparison { reading, frame }
    }

    // Whether a square is clear, and the frame has another code there.
    fn is_changed(&self, square: usize) -> bool
        requires { square < self.now.reading.geometry.strips * self.now.reading.geometry.squares }
        ensures { result ≡ differs self.now.reading.geometry.squares (showing_of self.now.reading) self.now.frame.now square }
    {
        let geometry = self.reading.geometry();
        let (order, squares) = (geometry.order(), geometry.squares());
        self.reading
            .shown()
            .is_changed(order, squares, self.frame, square)
    }

    // How many of some squares are changed.
    fn changed_among(&self, squares: Range<usize>) -> usize
        requires { squares.end ≤ self.now.reading.geometry.strips * self.now.reading.geometry.squares }
        ensures { result ≡ count (squares.end - squares.start) (λ i. differs self.now.reading.geometry.squares (showing_of self.now.reading) self.now.frame.now (squares.start + i)) }
    {
        squares.filter(|square| self.is_changed(*square)).count()
    }

    /// How many clear squares the frame has another code at than is shown.
    pub fn count_changed(&self) -> usize
        ensures { result ≡ changed_squares self.now.reading.geometry.squares self.now.reading.geometry.strips (showing_of self.now.reading) self.now.frame.now }
    {
        let geometry = self.reading.geometry();
        let (order, squares) = (geometry.order(), geometry.squares());
        count_changed(order, squares, *self.reading.shown(), self.frame)
    }

    // How many squares of a strip are changed.
    fn changed_in(&self, strip: usize) -> usize
        requires { strip < self.now.reading.geometry.strips }
        ensures { result ≡ changes self.now.reading.geometry.squares (showing_of self.now.reading) self.now.frame.now strip }
    {
        let squares = self.reading.geometry().squares();
        let start = strip * squares;
        self.changed_among(start..start + squares)
    }

    // How many strips have this many changed squares.
    fn strips_with(&self, changed: usize) -> usize
        ensures { result ≡ count self.now.reading.geometry.strips (λ j. nat_eq (changes self.now.reading.geometry.squares (showing_of self.now.reading) self.now.frame.now j) changed) }
    {
        (0..self.reading.geometry().strips())
            .filter(|strip| self.changed_in(*strip) == changed)
            .count()
    }

    /// The fewest strips that can be named wrong such that the others have no more changed squares than the budget. Those with
    /// the fewest changes are left out first.
    pub fn fewest_wrong(&self, budget: usize) -> usize
        ensures { Fewest self.now.reading.geometry.strips budget (changes self.now.reading.geometry.squares (showing_of self.now.reading) self.now.frame.now) result }
    {
        let mut wrong = self.reading.geometry().strips() - self.strips_with(0);
        let mut rest = budget;
        for changed in 1..=budget {
            let out = self.strips_with(changed).min(rest / changed);
            wrong -= out;
            rest -= out * changed;
        }
        wrong
    }

    /// The counts if the frame fits with at most `limit` silent squares, and `None` if it does not.
    pub fn weigh(&self, limit: usize) -> Option<Counts>
        ensures { Weighed limit self.now.reading.geometry.squares self.now.reading.geometry.strips self.now.reading.geometry.checks (showing_of self.now.reading) self.now.frame.now result }
    {
        let geometry = self.reading.geometry();
        let gone = self.reading.count_gone();
        let doubtful = self.reading.count_doubtful();
        let squares = geometry.squares();
        if doubtful > squares {
            return None;
        }
        let budget = limit.min((squares - doubtful) / 2);
        let wrong = self.fewest_wrong(budget);
        if 2 * wrong + gone >= geometry.checks() {
            return None;
        }
        let changed = self.count_changed();
        Some(Counts {
            gone,
            doubtful,
            changed,
        })
    }
}
