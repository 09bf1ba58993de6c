// Scripts: the header and the commands that a script spells.
#![tactic(auto)]

mod grammar;
#[cfg(test)]
mod tests;
mod theorems;

pub use grammar::{Command, FieldKind, Header, parse_command, parse_header};
pub use theorems::{reading_is_unique, refusals_are_right};
