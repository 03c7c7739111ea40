// Tests of the probing table, in a crate of their own so that the table is proved without them.
#![tactic(auto)]

#[cfg(test)]
mod tests;
