// Examples of jobs, and of texts that compose to them. Each is proved safe, and run.
#![tactic(auto)]

#[cfg(test)]
mod tests;
