// Looking over a frame.
ghost use Rattle.std.specs.Prelude.{◌≡◌, ◌*◌, ◌<◌, ◌≤◌, length, replicate, take};
ghost use Rattle.reel.specs.Sight.{Sighted, strips_with, squares_with, codes_with};

use fitting::Shown;
use medium::{Look, Medium};

// What is seen of a frame: a mark for each strip that is gone, and for each square a mark if it is doubtful, or its code.
#[derive(Drop)]
pub struct Sight {
    // How many strips and squares the frame has.
    // Stays: notes go by place, and not to each place; an `ArrayVec` only grows at its end.
    strips: usize,
    size: usize,
    strip_marks: [u8; 255],
    square_marks: [u8; 255],
    codes: [u8; 255],
    ghost room: { (strips ≤ length strip_marks) × (size ≤ length square_marks) × (size ≤ length codes) },
}

impl Sight {
    // Looks a frame over. Asks for a frame that there is, of 255 squares at most.
    pub fn of<M: Medium>(medium: &mut M, frame: usize) -> Sight
        requires there { frame < (M.Medium.shows medium.old).frames }
        requires some { 1 ≤ (M.Medium.shows medium.old).squares }
        requires few { (M.Medium.shows medium.old).strips * (M.Medium.shows medium.old).squares ≤ 255 }
        ensures same { M.Medium.shows medium.new ≡ M.Medium.shows medium.old }
        ensures strips { result.strips ≡ (M.Medium.shows medium.old).strips }
        ensures size { result.size ≡ (M.Medium.shows medium.old).strips * (M.Medium.shows medium.old).squares }
        ensures value { let v = M.Medium.shows medium.old in Sighted v frame v.squares result.codes result.strip_marks result.square_marks (v.strips * v.squares) }
    {
        let strips = medium.strips();
        let squares = medium.squares();
        let mut sight = Sight::blank(strips, strips * squares);
        // Stays: the places are the medium's, which is asked for each by strip and square; there is no slice to walk.
        for place in 0..sight.size {
            let strip = place / squares;
            let look = medium.look(frame, strip, place % squares).unwrap();
            sight.note(strip, place, look);
        }
        sight
    }

    // No notes yet on a frame of so many strips and squares.
    fn blank(strips: usize, size: usize) -> Sight
        requires { (strips ≤ 255) × (size ≤ 255) }
        ensures counts { (result.strips ≡ strips) × (result.size ≡ size) }
        ensures marks { (result.strip_marks ≡ replicate 255 0) × (result.square_marks ≡ replicate 255 0) }
    {
        Sight {
            strips,
            size,
            strip_marks: [0; 255],
            square_marks: [0; 255],
            codes: [0; 255],
        }
    }

    // Notes down how a square looks, by its strip and its place in the frame.
    fn note(&mut self, strip: usize, place: usize, look: Look)
        requires strip { strip < self.old.strips }
        requires place { place < self.old.size }
        ensures still { (self.new.strips ≡ self.old.strips) × (self.new.size ≡ self.old.size) }
        ensures strips { self.new.strip_marks ≡ strips_with look strip self.old.strip_marks }
        ensures squares { self.new.square_marks ≡ squares_with look place self.old.square_marks }
        ensures codes { self.new.codes ≡ codes_with look place self.old.codes }
    {
        match look {
            Look::Gone => self.strip_marks[strip] = 1,
            Look::Doubtful => self.square_marks[place] = 1,
            Look::Clear(code) => self.codes[place] = code,
        }
    }

    // The notes, as what is shown of the frame.
    pub fn shown(&self) -> Shown<'_>
        ensures codes { result.codes.now ≡ take self.now.size self.now.codes }
        ensures strips { result.strip_marks.now ≡ take self.now.strips self.now.strip_marks }
        ensures squares { result.square_marks.now ≡ take self.now.size self.now.square_marks }
    {
        Shown {
            codes: &self.codes[..self.size],
            strip_marks: &self.strip_marks[..self.strips],
            square_marks: &self.square_marks[..self.size],
        }
    }
}
