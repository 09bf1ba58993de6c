// A medium behind a head that moves: looking changes the device, and not what it means.
use medium::{Look, Medium};
use refusal::Refusal;

/// A medium, and the frame at which its head stands.
#[derive(Drop)]
pub struct Head<M> {
    pub medium: M,
    pub at: usize,
}

impl<M: Medium> Medium for Head<M> {
    ghost shows = { λ h. M.Medium.shows h.medium };

    fn frames(&self) -> usize {
        self.medium.frames()
    }

    fn strips(&self) -> usize {
        self.medium.strips()
    }

    fn squares(&self) -> usize {
        self.medium.squares()
    }

    fn levels(&self) -> usize {
        self.medium.levels()
    }

    fn look(&mut self, frame: usize, strip: usize, square: usize) -> Result<Look, Refusal> {
        self.at = frame;
        self.medium.look(frame, strip, square)
    }

    fn is_open(&mut self, frame: usize) -> Result<bool, Refusal> {
        self.at = frame;
        self.medium.is_open(frame)
    }

    fn write(&mut self, frame: usize, codes: &[u8]) -> Result<(), Refusal> {
        self.at = frame;
        self.medium.write(frame, codes)
    }
}
