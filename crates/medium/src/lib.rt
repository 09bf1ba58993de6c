// A medium of frames, each of strips of squares: what it means, and what it answers.
#![tactic(auto)]

mod counts;
mod medium;

pub use counts::Counts;
pub use medium::{Look, Medium};
