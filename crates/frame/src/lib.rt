// The published code: check sums, and the frame of a record.
#![tactic(auto)]

mod encoder;
mod locators;
mod power_sums;
mod syndromes;
mod table;

pub use encoder::encode;
pub use locators::Locators;
pub use power_sums::{moments, powers};
pub use syndromes::check_sums;
pub use table::{column_sums, gather_row, scatter_row, solve_strips};
