// Records and frames of cards as lines of text.
#![tactic(auto)]

mod line;
mod number;
mod record;
mod text;

pub use line::{LineBuffer, kept_is_enough};
pub use number::parse_number;
pub use record::{LINE, frame_line};
