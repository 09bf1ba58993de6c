// Correction: the frame that fits what is shown.
#![tactic(auto)]

mod showing;
mod sums;

pub use showing::correct;
pub use sums::correct_sums;
