// The candidate: the one frame that an array may have been.
#![tactic(auto)]

mod erasures;
mod site;
mod strips;

pub use site::Site;
pub use strips::candidate;
