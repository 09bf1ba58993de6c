// The counts of a medium, within the limits.
ghost use Rattle.std.specs.Prelude.{◌≡◌, ◌+◌, ◌*◌, ◌^◌, ◌<◌, ◌≤◌, ◌↔◌, IsTrue, MatchResult};
ghost use Rattle.refusal.specs.declared.Refusal.TheVariants.{Unsuited};
ghost use Rattle.medium.specs.Limits.{Suited};
ghost use Rattle.medium.specs.Places.{size_of, strip_at};

use refusal::Refusal;
use std::marker::Model;

/// How many frames a medium has, strips in a frame, squares in a strip. Every value keeps the limits.
#[derive(Clone, Copy, PartialEq, Eq, Debug)]
pub struct Counts {
    frames: usize,
    strips: usize,
    squares: usize,
}

impl Model for Counts {
    ghost use Rattle.medium.specs.Counts.{Shape};
    ghost use Rattle.medium.specs.Limits.{Suited};

    ghost Value = { Shape };

    ghost view = { λ c. record { frames = c.frames; strips = c.strips; squares = c.squares } };

    ghost invariant = { λ c. Suited c.frames c.strips c.squares };

    ghost inverse = { λ s. record { frames = s.frames; strips = s.strips; squares = s.squares } };
}

// Whether counts keep the limits; no product passes a number's width.
fn within_limits(frames: usize, strips: usize, squares: usize) -> bool
    ensures { IsTrue result ↔ Suited frames strips squares }
{
    (1..=4096).contains(&frames)
        && strips <= 255
        && squares <= 255
        && strips * squares >= 1
        && strips * squares <= 255
}

impl Counts {
    ghost use Rattle.medium.specs.Counts.{frame_count, strip_count, square_count};

    /// The counts, if they keep the limits; else 2.
    pub fn new(frames: usize, strips: usize, squares: usize) -> Result<Counts, Refusal>
        ensures value { MatchResult result (λ c. (frame_count c ≡ frames) × (strip_count c ≡ strips) × (square_count c ≡ squares) × Suited frames strips squares) (λ e. (e ≡ Unsuited) × (Suited frames strips squares → ⊥)) }
    {
        if !within_limits(frames, strips, squares) {
            return Err(Refusal::Unsuited);
        }
        Ok(Counts {
            frames,
            strips,
            squares,
        })
    }

    pub fn frames(&self) -> usize
        ensures value { result ≡ frame_count self.now }
        ensures below { (1 ≤ result) × (result ≤ 4096) }
        ensures suited { Suited (frame_count self.now) (strip_count self.now) (square_count self.now) }
    {
        self.frames
    }

    pub fn strips(&self) -> usize
        ensures value { result ≡ strip_count self.now }
        ensures below { (1 ≤ result) × (result ≤ 255) }
        ensures suited { Suited (frame_count self.now) (strip_count self.now) (square_count self.now) }
    {
        self.strips
    }

    pub fn squares(&self) -> usize
        ensures value { result ≡ square_count self.now }
        ensures below { (1 ≤ result) × (result ≤ 255) }
        ensures suited { Suited (frame_count self.now) (strip_count self.now) (square_count self.now) }
    {
        self.squares
    }

    /// How many squares a frame has.
    pub fn frame_squares(&self) -> usize
        ensures value { result ≡ strip_count self.now * square_count self.now }
        ensures below { (1 ≤ result) × (result ≤ 255) }
        ensures suited { Suited (frame_count self.now) (strip_count self.now) (square_count self.now) }
    {
        self.strips * self.squares
    }

    /// Whether there is such a strip.
    pub fn has_strip(&self, frame: usize, strip: usize) -> bool
        ensures there { IsTrue result ↔ ((frame < frame_count self.now) × (strip < strip_count self.now)) }
        ensures suited { Suited (frame_count self.now) (strip_count self.now) (square_count self.now) }
    {
        frame < self.frames && strip < self.strips
    }

    /// Whether there is such a square.
    pub fn has_square(&self, frame: usize, strip: usize, square: usize) -> bool
        ensures there { IsTrue result ↔ ((frame < frame_count self.now) × (strip < strip_count self.now) × (square < square_count self.now)) }
        ensures suited { Suited (frame_count self.now) (strip_count self.now) (square_count self.now) }
    {
        self.has_strip(frame, strip) && square < self.squares
    }

    /// How many bytes a memory has in which each strip takes `width` bytes. Asks for a width that a strip can have.
    pub fn size(&self, width: usize) -> usize
        requires { width ≤ 511 }
        ensures value { result ≡ size_of (frame_count self.now) (strip_count self.now) width }
        ensures suited { Suited (frame_count self.now) (strip_count self.now) (square_count self.now) }
    {
        self.frames * self.strips * width
    }

    /// Where a strip starts in such a memory. Asks for a strip that there is.
    pub fn strip_at(&self, frame: usize, strip: usize, width: usize) -> usize
        requires { (frame < frame_count self.now) × ((strip < strip_count self.now) × (width ≤ 511)) }
        ensures value { result ≡ strip_at (strip_count self.now) width frame strip }
        ensures below { result + width ≤ size_of (frame_count self.now) (strip_count self.now) width }
        ensures small { result < 2 ^ 30 }
        ensures suited { Suited (frame_count self.now) (strip_count self.now) (square_count self.now) }
    {
        (frame * self.strips + strip) * width
    }
}
