// Linear algebra over any field: Vandermonde systems, the key equation, and one row's errors and erasures.
#![tactic(auto)]

mod key_equation;
mod row;
mod table;
mod vandermonde;

pub use key_equation::kernel;
pub use row::row_errors;
pub use table::{fold, take_out};
pub use vandermonde::{peel, solve};
