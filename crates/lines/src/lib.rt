// The lines that a script prints: one for each command, and one for an error in the script itself.
#![tactic(auto)]

mod line;
#[cfg(test)]
mod tests;
mod text;
mod theorems;

pub use line::{Answer, ReadBack, answer_line, error_line};
pub use theorems::{decimals_read_back, symbols_read_back};
