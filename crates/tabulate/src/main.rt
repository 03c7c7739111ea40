// Reads a fact count, an effect count and a tape from standard input, and prints the tape's effect at
// every request.
#![tactic(auto)]

use std::fmt;
use std::io::Read;
use tabulation::{Table, TabulateError, tabulate};

// One byte more than an input may have, so that one that is too long is seen to be.
const ENOUGH: u64 = 65538;

// A request as the set of its fact numbers, in rising order: `{0,2}`.
#[derive(Clone, Copy)]
struct FactSet(u32);

impl fmt::Display for FactSet {
    fn fmt<W: fmt::Write>(&self, f: &mut fmt::Formatter<W>) -> fmt::Result {
        write!(f, "{{")?;
        let facts = (0u32..32).filter(|fact| self.0 >> fact & 1 == 1);
        for (n, fact) in facts.enumerate() {
            if n > 0 {
                write!(f, ",")?;
            }
            write!(f, "{fact}")?;
        }
        write!(f, "}}")
    }
}

fn print_table(rt: &HostRuntime, table: &Table) -> anyhow::Result<()> {
    for row in &table.rows {
        let name = table.effects.name(row.code);
        println!(rt; "{} {} {name}", row.mask, FactSet(row.mask))?;
    }
    for code in 0..table.effects.count() {
        let name = table.effects.name(code);
        println!(rt; "= {name} {}", table.count_of(code))?;
    }
    Ok(())
}

fn main(rt: HostRuntime) -> anyhow::Result<()> {
    let mut input = Vec::new(rt.alloc());
    rt.stdin().take(ENOUGH).read_to_end(&mut input)?;
    match tabulate(rt.alloc(), &input) {
        Ok(table) => print_table(&rt, &table)?,
        Err(error @ TabulateError::OutOfMemory) => return Err(error.into()),
        // an input with no table is answered too, in the place of the table
        Err(error) => println!(rt; "{error}")?,
    }
    Ok(())
}
