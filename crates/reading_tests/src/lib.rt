// Examples of reading: the tables of the two algebras, every refusal at its boundaries and in its order,
// algebras that have nothing but what the interface asks, and the inputs of the tabulating program.
#![tactic(auto)]

#[cfg(test)]
mod algebras;
pub mod hostile;
#[cfg(test)]
mod inputs;
#[cfg(test)]
mod minimal;
#[cfg(test)]
mod reading;
#[cfg(test)]
mod refusals;
#[cfg(test)]
mod rules;
