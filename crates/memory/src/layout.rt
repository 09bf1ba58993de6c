// What a layout is: how a strip stands in bytes of its own.
ghost use Rattle.std.specs.Prelude.{◌≡◌, ℕ, ◌<◌, ◌≤◌, List, length, if◌then◌else◌, slice_index};
ghost use Rattle.refusal.specs.Codes.{Below};
ghost use Rattle.medium.specs.declared.medium.Look.TheVariants.{Gone};
ghost use Rattle.medium.specs.Counts.{Shape};
ghost use Rattle.medium.specs.Meaning.{Meaning, look_on};
ghost use Rattle.medium.specs.Within.{bounded};
ghost use Rattle.memory.specs.Plan.{Plan, Laws};
ghost use Rattle.memory.specs.Shows.{size, shows};

use medium::{Counts, Look};

/// How a strip stands in bytes of its own. No method looks at any other byte.
pub trait Layout {
    /// How many codes a square can show.
    const LEVELS: usize;

    ghost LEVELS: { ℕ };

    // what a strip takes, and what its bytes say
    ghost plan: { Plan };

    // the strip of so many squares at a place of a memory holds as many codes, from one of them on
    ghost Holds: { List ℕ → ℕ → ℕ → List ℕ → ℕ → Type 0 };

    // What `over` and `fresh` promise is what an instance says in these two: what a medium over a memory of its length shows,
    ghost Laid: { Shape → List ℕ → Meaning → Type 0 };

    // and what a fresh one shows
    ghost Fresh: { Meaning → Type 0 };

    /// How many bytes a strip takes.
    fn width(counts: Counts) -> usize
        ensures value { result ≡ plan.width counts.squares }
        ensures most { result ≤ 511 };

    /// The byte at a place of a fresh memory.
    fn fresh_byte(counts: Counts, place: usize) -> u8
        ensures value { result ≡ plan.fresh_byte counts.squares place };

    /// How a square of a strip looks.
    fn look(strip: &[u8], counts: Counts, square: usize) -> Look
        requires { (length strip.now ≡ plan.width counts.squares) × (square < counts.squares) }
        ensures value { result ≡ (if plan.gone strip.now 0 counts.squares then Gone else look_on (bounded plan.levels (plan.square strip.now 0 counts.squares square))) };

    /// Whether a strip takes a writing.
    fn is_writable(strip: &[u8], counts: Counts) -> bool
        requires { length strip.now ≡ plan.width counts.squares }
        ensures value { result ≡ plan.writable strip.now 0 counts.squares };

    /// Writes the codes of a strip, one to a square.
    fn store(strip: &mut [u8], codes: &[u8])
        requires { (length strip.old ≡ plan.width (length codes.now)) × Below plan.levels codes.now }
        ensures value { Holds strip.new 0 (length codes.now) codes.now 0 };

    ghost levels: { plan.levels ≡ LEVELS };

    ghost laws: { Laws plan Holds };

    ghost laid: { (c : Shape) (xs : List ℕ) → length xs ≡ size plan c → Laid c xs (shows plan c xs) };

    ghost fresh: { (c : Shape) (xs : List ℕ) → length xs ≡ size plan c → ((i : ℕ) → i < length xs → slice_index xs i ≡ plan.fresh_byte c.squares i) → Fresh (shows plan c xs) };
}
