// A tray: a medium in the caller's memory, a few bytes to a square.
#![tactic(auto)]

mod layout;
mod wear;

pub use layout::{Tray, TrayLayout};
pub use wear::Wear;
