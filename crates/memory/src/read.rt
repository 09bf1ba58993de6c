// How the bytes of a medium in memory read. All goes through a shared borrow, after which the bytes are known to be the same.
ghost use Rattle.std.specs.Prelude.{◌≡◌, ◌+◌, ◌*◌, ◌<◌, ◌≤◌, true, false, length, if◌then◌else◌};
ghost use Rattle.medium.specs.Limits.{Suited};
ghost use Rattle.medium.specs.Meaning.{look_of, open_of};
ghost use Rattle.memory.specs.Plan.{Alike};
ghost use Rattle.memory.specs.Shows.{place, HasStrip, has_size, frame_writable, shows};

use crate::in_memory::InMemory;
use crate::layout::Layout;
use medium::Look;
use refusal::Refusal;

impl<'a, L: Layout> InMemory<'a, L> {
    // Whether the memory has the length of the medium.
    pub(crate) fn suits(&self) -> bool
        ensures value { result ≡ has_size L.plan self.now.counts self.now.bytes.now }
    {
        self.bytes.len() == Self::size(self.counts)
    }

    // The bytes of a strip. Asks for a strip that there is, in a memory of the right length.
    // Stays: a strip that there is, as a type, would hold the medium by a borrow, and writing needs it by another.
    fn strip(&self, frame: usize, strip: usize) -> &[u8]
        requires { HasStrip L.plan self.now.counts frame strip self.now.bytes.now }
        ensures long { length result.now ≡ L.plan.width self.now.counts.squares }
        ensures bytes { Alike (L.plan.width self.now.counts.squares) result.now 0 self.now.bytes.now (place L.plan self.now.counts frame strip) }
    {
        let width = L::width(self.counts);
        let at = self.counts.strip_at(frame, strip, width);
        &self.bytes[at..at + width]
    }

    // How a square looks.
    pub(crate) fn seen(&self, frame: usize, strip: usize, square: usize) -> Result<Look, Refusal>
        ensures value { result ≡ look_of (shows L.plan self.now.counts self.now.bytes.now) frame strip square }
        ensures suited { Suited self.now.counts.frames self.now.counts.strips self.now.counts.squares }
    {
        if !self.counts.has_square(frame, strip, square) {
            return Err(Refusal::NoSuchPlace);
        }
        if !self.suits() {
            return Ok(Look::Gone);
        }
        Ok(L::look(self.strip(frame, strip), self.counts, square))
    }

    // Whether a strip takes a writing. Asks for a strip that there is, in a memory of the right length.
    fn is_strip_writable(&self, frame: usize, strip: usize) -> bool
        requires { HasStrip L.plan self.now.counts frame strip self.now.bytes.now }
        ensures value { result ≡ L.plan.writable self.now.bytes.now (place L.plan self.now.counts frame strip) self.now.counts.squares }
    {
        L::is_writable(self.strip(frame, strip), self.counts)
    }

    // Whether a frame takes a writing. Asks for a frame that there is.
    pub(crate) fn is_writable(&self, frame: usize) -> bool
        requires { frame < self.now.counts.frames }
        ensures value { result ≡ (if has_size L.plan self.now.counts self.now.bytes.now then frame_writable L.plan self.now.counts self.now.bytes.now frame else false) }
    {
        if !self.suits() {
            return false;
        }
        (0..self.counts.strips()).all(|strip| self.is_strip_writable(frame, strip))
    }

    // Whether a frame is open.
    pub(crate) fn told(&self, frame: usize) -> Result<bool, Refusal>
        ensures value { result ≡ open_of (shows L.plan self.now.counts self.now.bytes.now) frame }
        ensures suited { Suited self.now.counts.frames self.now.counts.strips self.now.counts.squares }
    {
        if frame >= self.counts.frames() {
            return Err(Refusal::NoSuchPlace);
        }
        Ok(self.is_writable(frame))
    }
}
