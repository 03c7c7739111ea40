// From the bytes of an input to the table of a tape: its effect at every request.
#![tactic(auto)]

mod error;
mod input;
mod names;
mod order;
mod rows;
mod tables;

pub use error::TabulateError;
pub use input::{BadInput, EffectSet, Input};
pub use rows::{Row, Table};
pub use tables::tabulate;
