// A reel: one medium with one geometry and one field.
#![tactic(auto)]

mod reel;
mod sight;
mod writing;

pub use reel::Reel;
