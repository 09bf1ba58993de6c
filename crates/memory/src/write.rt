// Writing on a medium in memory: the codes of a frame, strip by strip.
ghost use Rattle.std.specs.Prelude.{◌≡◌, ◌+◌, ◌*◌, ◌<◌, ◌≤◌, ◌↔◌, IsTrue, IfOk, IfErr, length};
ghost use Rattle.refusal.specs.Codes.{Below};
ghost use Rattle.medium.specs.Limits.{Suited};
ghost use Rattle.medium.specs.Memory.{Room, Beside};
ghost use Rattle.medium.specs.Write.{Writes};
ghost use Rattle.memory.specs.Shows.{place, HasStrip, shows, Takes, Stored};

use crate::in_memory::InMemory;
use crate::layout::Layout;
use medium::Counts;
use refusal::Refusal;

// Whether every code is one that a square can show.
fn all_below<L: Layout>(codes: &[u8]) -> bool
    ensures below { IsTrue result ↔ Below L.plan.levels codes.now }
{
    codes.iter().all(|&code| usize::from(code) < L::LEVELS)
}

impl<'a, L: Layout> InMemory<'a, L> {
    // Whether these codes may be written as a frame: refused with 3, 4, 5, 6, tested in this order.
    pub(crate) fn test_write(&self, frame: usize, codes: &[u8]) -> Result<(), Refusal>
        ensures ok { IfOk result (λ _. Takes L.plan self.now.counts frame codes.now self.now.bytes.now) }
        ensures err { IfErr result (λ e. Writes (shows L.plan self.now.counts self.now.bytes.now) frame codes.now (Err e) (shows L.plan self.now.counts self.now.bytes.now)) }
        ensures suited { Suited self.now.counts.frames self.now.counts.strips self.now.counts.squares }
    {
        if frame >= self.counts.frames() {
            return Err(Refusal::NoSuchPlace);
        }
        if codes.len() != self.counts.frame_squares() {
            return Err(Refusal::WrongLength);
        }
        if !all_below::<L>(codes) {
            return Err(Refusal::BadSymbol);
        }
        if !self.is_writable(frame) {
            return Err(Refusal::Closed);
        }
        Ok(())
    }
}

// Writes the codes of a strip, and no other byte. Asks for a strip that there is, in a memory of the right length, and for a code
// for each of its squares.
fn store_strip<L: Layout>(
    bytes: &mut [u8],
    counts: Counts,
    frame: usize,
    strip: usize,
    codes: &[u8],
)
    requires place { HasStrip L.plan counts frame strip bytes.old }
    requires codes { (length codes.now ≡ counts.squares) × (Below L.plan.levels codes.now) }
    ensures frame { L.Holds bytes.new (place L.plan counts frame strip) counts.squares codes.now 0 }
    ensures same { Beside bytes.old bytes.new (place L.plan counts frame strip) (place L.plan counts frame strip + L.plan.width counts.squares) }
{
    let width = L::width(counts);
    let at = counts.strip_at(frame, strip, width);
    L::store(&mut bytes[at..at + width], codes);
}

// Writes the codes of a frame. Asks for a frame that there is, in a memory of the right length, and for all its codes.
pub fn store_frame<L: Layout>(bytes: &mut [u8], counts: Counts, frame: usize, codes: &[u8])
    requires { (Room counts (L.plan.width counts.squares) frame codes.now bytes.old) × (Below L.plan.levels codes.now) }
    ensures frame { Stored L.plan L.Holds counts frame codes.now bytes.old bytes.new }
{
    let squares = counts.squares();
    for (strip, codes) in codes.chunks_exact(squares).enumerate() {
        store_strip::<L>(bytes, counts, frame, strip, codes);
    }
}
