// Composing: from a text for people, one command a line, to the bytes of a job.
#![tactic(auto)]

mod commands;
mod error;
mod numerals;
mod splitting;
mod texts;
mod verb;

pub use error::ComposeError;
pub use texts::compose;
