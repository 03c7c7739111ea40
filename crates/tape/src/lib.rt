// Tapes: commands and their bytes, the rules by which they work on a stack of entries, and direct
// reading, which runs the rules at one request.
#![tactic(auto)]

mod at_request;
mod checks;
mod command;
mod decode;
mod entries;
mod holdings;
mod numbers;
mod reader;
mod refusal;
mod rules;
mod stack;

pub use at_request::AtRequest;
pub use command::{Command, Kind};
pub use decode::beyond;
pub use entries::Entries;
pub use holdings::holdings_stand;
pub use reader::{LONGEST_TAPE, read, read_with};
pub use refusal::{Layer, Refusal, RefusedAt};
pub use rules::Rules;
pub use stack::{Outline, Stack};
