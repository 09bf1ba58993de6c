// A card: a medium in the caller's memory that people can read, one character to a square.
#![tactic(auto)]

mod alphabet;
mod layout;

pub use alphabet::{alphabet_stands, character_of, value_of};
pub use layout::{Card, CardLayout};
