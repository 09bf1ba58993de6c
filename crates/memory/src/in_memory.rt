// A medium in the caller's memory, and how it is made: first a test that answers the number, then a making of what passed, which
// cannot refuse.
//
// The test hands out `Counts`, which keep the limits by their type; the making takes them with the memory. Nothing ties the
// two together but the length, and a test that may refuse hands out no value that holds the memory. So a making asks nothing:
// over a memory of the wrong length the medium is closed and every strip of it gone. After the test this never comes about.
ghost use Rattle.std.specs.Prelude.{◌≡◌, ℕ, ◌+◌, ◌<◌, ◌≤◌, true, length, slice_index};
ghost use Rattle.medium.specs.Limits.{Suited};
ghost use Rattle.medium.specs.Memory.{Tests};
ghost use Rattle.memory.specs.Shows.{size as memory_size, shows};

use crate::layout::Layout;
use medium::Counts;
use refusal::Refusal;
use std::marker::PhantomData;

/// A medium over the caller's memory. Its fields may be given directly, as `over` does: a caller that writes the value out
/// itself knows all of its memory again when the medium is gone.
#[derive(Drop)]
pub struct InMemory<'a, L: Layout> {
    pub bytes: &'a mut [u8],
    pub counts: Counts,
    pub layout: PhantomData<L>,
}

// Makes the bytes those of a fresh medium.
fn fill<L: Layout>(bytes: &mut [u8], counts: Counts)
    ensures left { (i : ℕ) → i < length bytes.new → slice_index bytes.new i ≡ L.plan.fresh_byte counts.squares i }
{
    for (i, byte) in bytes.iter_mut().enumerate() {
        *byte = L::fresh_byte(counts, i);
    }
}

impl<'a, L: Layout> InMemory<'a, L> {
    /// The counts of a medium over a memory of this length, if they keep the limits and it has that length; else 2.
    pub fn test(
        frames: usize,
        strips: usize,
        squares: usize,
        long: usize,
    ) -> Result<Counts, Refusal>
        ensures counts { Tests frames strips squares (L.plan.width squares) long result }
    {
        let counts = Counts::new(frames, strips, squares)?;
        if long != Self::size(counts) {
            return Err(Refusal::Unsuited);
        }
        Ok(counts)
    }

    /// How many bytes a medium takes.
    pub fn size(counts: Counts) -> usize
        ensures value { result ≡ memory_size L.plan counts }
        ensures suited { Suited counts.frames counts.strips counts.squares }
    {
        counts.size(L::width(counts))
    }

    /// A medium over a memory as it stands.
    pub fn over(bytes: &'a mut [u8], counts: Counts) -> Self
        ensures value { length bytes.old ≡ memory_size L.plan counts → L.Laid counts bytes.old (shows L.plan result.counts result.bytes.now) }
        ensures left { result.bytes.now ≡ bytes.old }
        ensures counts { result.counts ≡ counts }
        ensures suited { Suited counts.frames counts.strips counts.squares }
    {
        InMemory {
            bytes,
            counts,
            layout: PhantomData,
        }
    }

    /// A fresh medium, each byte of it the layout's fresh byte.
    pub fn fresh(bytes: &'a mut [u8], counts: Counts) -> Self
        ensures value { length bytes.old ≡ memory_size L.plan counts → L.Fresh (shows L.plan result.counts result.bytes.now) }
        ensures left { (length result.bytes.now ≡ length bytes.old) × (((i : ℕ) → i < length result.bytes.now → slice_index result.bytes.now i ≡ L.plan.fresh_byte counts.squares i)) }
        ensures counts { result.counts ≡ counts }
        ensures suited { Suited counts.frames counts.strips counts.squares }
    {
        fill::<L>(bytes, counts);
        Self::over(bytes, counts)
    }
}
