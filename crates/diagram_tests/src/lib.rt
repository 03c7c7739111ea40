// Tests of the diagrams, in a crate of their own so that the diagrams are proved without them.
#![tactic(auto)]

#[cfg(test)]
mod tests;
