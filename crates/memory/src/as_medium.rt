// A medium in memory as a medium.
ghost use Rattle.std.specs.Prelude.{◌≡◌, MatchResult};
ghost use Rattle.medium.specs.Limits.{Suited};
ghost use Rattle.medium.specs.Meaning.{look_of, open_of};
ghost use Rattle.medium.specs.Write.{Writes};
ghost use Rattle.memory.specs.Shows.{shows, Stored};

use crate::in_memory::InMemory;
use crate::layout::Layout;
use crate::write::store_frame;
use medium::{Look, Medium};
use refusal::Refusal;

impl<'a, L: Layout> Medium for InMemory<'a, L> {
    ghost shows = { λ t. shows L.plan t.counts t.bytes.now };

    fn frames(&self) -> usize
        ensures value { result ≡ (shows L.plan self.now.counts self.now.bytes.now).frames }
        ensures suited { Suited self.now.counts.frames self.now.counts.strips self.now.counts.squares }
    {
        self.counts.frames()
    }

    fn strips(&self) -> usize
        ensures value { result ≡ (shows L.plan self.now.counts self.now.bytes.now).strips }
        ensures suited { Suited self.now.counts.frames self.now.counts.strips self.now.counts.squares }
    {
        self.counts.strips()
    }

    fn squares(&self) -> usize
        ensures value { result ≡ (shows L.plan self.now.counts self.now.bytes.now).squares }
        ensures suited { Suited self.now.counts.frames self.now.counts.strips self.now.counts.squares }
    {
        self.counts.squares()
    }

    fn levels(&self) -> usize {
        // Stays: tried without; another crate learns the invariant of the counts from a call's clause alone, and so the limits.
        let _ = self.counts.frames();
        L::LEVELS
    }

    fn look(&mut self, frame: usize, strip: usize, square: usize) -> Result<Look, Refusal>
        ensures value { result ≡ look_of (shows L.plan self.old.counts self.old.bytes.now) frame strip square }
        ensures same { shows L.plan self.new.counts self.new.bytes.now ≡ shows L.plan self.old.counts self.old.bytes.now }
        ensures left { (self.new.bytes.now ≡ self.old.bytes.now) × (self.new.bytes.ghost_name ≡ self.old.bytes.ghost_name) }
        ensures counts { self.new.counts ≡ self.old.counts }
        ensures suited { Suited self.old.counts.frames self.old.counts.strips self.old.counts.squares }
    {
        self.seen(frame, strip, square)
    }

    fn is_open(&mut self, frame: usize) -> Result<bool, Refusal>
        ensures value { result ≡ open_of (shows L.plan self.old.counts self.old.bytes.now) frame }
        ensures same { shows L.plan self.new.counts self.new.bytes.now ≡ shows L.plan self.old.counts self.old.bytes.now }
        ensures left { (self.new.bytes.now ≡ self.old.bytes.now) × (self.new.bytes.ghost_name ≡ self.old.bytes.ghost_name) }
        ensures counts { self.new.counts ≡ self.old.counts }
        ensures suited { Suited self.old.counts.frames self.old.counts.strips self.old.counts.squares }
    {
        self.told(frame)
    }

    fn write(&mut self, frame: usize, codes: &[u8]) -> Result<(), Refusal>
        ensures frame { Writes (shows L.plan self.old.counts self.old.bytes.now) frame codes.now result (shows L.plan self.new.counts self.new.bytes.now) }
        ensures left { (MatchResult result (λ _. Stored L.plan L.Holds self.old.counts frame codes.now self.old.bytes.now self.new.bytes.now) (λ _. self.new.bytes.now ≡ self.old.bytes.now)) × (self.new.bytes.ghost_name ≡ self.old.bytes.ghost_name) }
        ensures counts { self.new.counts ≡ self.old.counts }
        ensures suited { Suited self.old.counts.frames self.old.counts.strips self.old.counts.squares }
    {
        self.test_write(frame, codes)?;
        let counts = self.counts;
        store_frame::<L>(self.bytes, counts, frame, codes);
        Ok(())
    }
}
