// What a medium is: counts, and three calls that follow its meaning.
ghost use Rattle.std.specs.Prelude.{◌≡◌};
ghost use Rattle.medium.specs.Limits.{Limits};
ghost use Rattle.medium.specs.Meaning.{Meaning, look_of, open_of};
ghost use Rattle.medium.specs.Write.{Writes};

use refusal::Refusal;

/// How a square looks.
#[derive(Clone, Copy, PartialEq, Eq, Debug)]
pub enum Look {
    /// Its strip is gone.
    Gone,
    /// Its strip is there, and the square cannot be told.
    Doubtful,
    /// It shows a code, below the levels of the medium.
    Clear(u8),
}

/// A medium of frames. Looking may change the medium (a head may move), never its meaning.
pub trait Medium {
    ghost shows: { Self → Meaning };

    fn frames(&self) -> usize
        ensures value { result ≡ (shows self.now).frames };

    fn strips(&self) -> usize
        ensures value { result ≡ (shows self.now).strips };

    fn squares(&self) -> usize
        ensures value { result ≡ (shows self.now).squares };

    /// How many codes a square can show. The limits of the whole meaning are promised here, in a clause, and not by a law of
    /// the trait; docs/DECISIONS.md says why.
    fn levels(&self) -> usize
        ensures value { result ≡ (shows self.now).levels }
        ensures below { Limits (shows self.now) };

    /// How a square looks; refused with 3 if a number is too large.
    // Stays: callers have the numbers of a place one by one; a struct of them would be made anew at each call.
    fn look(&mut self, frame: usize, strip: usize, square: usize) -> Result<Look, Refusal>
        ensures value { result ≡ look_of (shows self.old) frame strip square }
        ensures same { shows self.new ≡ shows self.old };

    /// Whether a frame is open for writing; refused with 3 if its number is too large.
    fn is_open(&mut self, frame: usize) -> Result<bool, Refusal>
        ensures value { result ≡ open_of (shows self.old) frame }
        ensures same { shows self.new ≡ shows self.old };

    /// Writes the codes of a frame, strip by strip; refused with 3, 4, 5, 6, tested in this order.
    fn write(&mut self, frame: usize, codes: &[u8]) -> Result<(), Refusal>
        ensures frame { Writes (shows self.old) frame codes.now result (shows self.new) };
}
