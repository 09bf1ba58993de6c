// Media in the caller's memory: one type for every layout of a strip.
#![tactic(auto)]

mod as_medium;
mod in_memory;
mod layout;
mod read;
mod write;

pub use in_memory::InMemory;
pub use layout::Layout;
