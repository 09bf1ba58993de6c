// Whether a frame fits what is shown of it.
#![tactic(auto)]

mod comparison;
mod counts;
mod decision;
mod reading;

pub use comparison::Comparison;
pub use counts::{Counts, count_changed, count_doubtful, count_marked};
pub use decision::{SILENT_LIMIT, fits};
pub use reading::{Reading, Shown};
