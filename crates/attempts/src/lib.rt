// Attempts at a fitting frame: with no silent square, then with each clear square for the silent one.
#![tactic(auto)]

mod attempt;
mod reading;
mod search;
mod start;

pub use attempt::Fit;
pub use reading::read_out;
pub use search::find;
