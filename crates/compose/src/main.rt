// Reads a text with one command a line from standard input, and writes the job that it spells.
#![tactic(auto)]

use composing::{ComposeError, compose};
use std::io::{Read, Write};

// The most bytes of a text that are read, so that an endless input ends.
const ENOUGH: u64 = 16777216;

fn run(rt: &HostRuntime) -> anyhow::Result<()> {
    let mut text = Vec::new(rt.alloc());
    rt.stdin().take(ENOUGH).read_to_end(&mut text)?;
    match compose(rt.alloc(), &text) {
        Ok(job) => rt.stdout().write_all(&job)?,
        Err(error @ ComposeError::Unreadable(_)) => println!(rt; "{error}")?,
        Err(error) => return Err(error.into()),
    }
    Ok(())
}

fn main(rt: HostRuntime) -> anyhow::Result<()> {
    run(&rt)
}
