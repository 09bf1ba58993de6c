// Finite fields on codes.
#![tactic(auto)]

mod bytes;
mod field;
mod logs;
mod mod37;
#[cfg(test)]
mod tests;

pub use bytes::Bytes;
pub use field::Field;
pub use mod37::Mod37;
