// A shelf: named facts, filed policies, and at most one open draft.
//
// `shelf` has what a shelf keeps, `making` how it is made, `names` declare and find, `drafts` open, feed, file and abandon,
// `loading` load, `questions` ask, shape, compare and held, and `runner` runs a list of calls, under the law over runs.
#![tactic(auto)]

mod draft;
mod drafts;
mod exchange;
mod loading;
mod making;
mod names;
mod questions;
mod runner;
mod shelf;
mod state;
mod states;

pub use draft::{Draft, DraftId};
pub use exchange::{Answer, Call};
pub use names::is_good;
pub use runner::{run, run_on};
pub use shelf::Shelf;
