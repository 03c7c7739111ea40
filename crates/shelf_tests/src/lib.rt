// Examples of a shelf: names, drafts, loading, questions and runs, and shelves of two algebras that have nothing but what
// the interface asks. In a crate of their own so that the shelf is proved without them.
#![tactic(auto)]

#[cfg(test)]
mod drafts;
pub mod hostile;
pub mod instances;
#[cfg(test)]
mod lending;
#[cfg(test)]
mod loads;
#[cfg(test)]
mod minimal;
#[cfg(test)]
mod names;
#[cfg(test)]
mod questions;
#[cfg(test)]
mod runs;
#[cfg(test)]
mod support;
