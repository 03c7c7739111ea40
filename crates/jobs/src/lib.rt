// Jobs: rows of bytes that spell calls of a shelf, and the lines that their answers print as.
#![tactic(auto)]

mod collating;
mod command;
mod line;
mod parsing;
mod printing;
mod taken;

pub use collating::collate;
pub use line::Line;
pub use parsing::parse;
pub use printing::line_of;
pub use taken::Job;
