// Reads a job from standard input, runs it on a new shelf, and prints a line for each of its commands.
#![tactic(auto)]

use jobs::collate;
use std::io::Read;

// One byte more than a job may have, so that one that is too long is seen to be.
const ENOUGH: u64 = 65536;

fn run(rt: &HostRuntime) -> anyhow::Result<()> {
    let mut job = Vec::new(rt.alloc());
    rt.stdin().take(ENOUGH).read_to_end(&mut job)?;
    for line in collate(rt.alloc(), &job)?.iter() {
        println!(rt; "{line}")?;
    }
    Ok(())
}

fn main(rt: HostRuntime) -> anyhow::Result<()> {
    run(&rt)
}
