// The rules, over what an entry is for the reader that runs them.
ghost use Rattle.std.specs.Prelude.{ℕ, ◌<◌, ◌≤◌, false, length, IfOk};
ghost use Rattle.effects.specs.Cells.{cell};
ghost use Rattle.effects.specs.Codes.{Codes as Algebra, Closed};
ghost use Rattle.effects.specs.Tables.{bit, Tables};
ghost use Rattle.tape.specs.Requests.{has, any as some, all as every};
ghost use Rattle.tape.specs.Tape.{Row};
ghost use Rattle.tape.specs.Entries.{Model, Lasts, Gives, Makes, Within};

use crate::command::Command;
use crate::refusal::{Refusal, RefusedAt};
use crate::rules::Rules;
use crate::stack::Stack;
use effects::{CodeTable, EffectTables};

// What an entry is for the reader that runs the rules: a value at one request, or something that
// stands for the values at all of them. The model says for which requests an entry speaks, and with
// what value; making one may be refused for want of a slot, and for nothing else.
pub trait Entries {
    type Entry: Copy;

    ghost model: { Model Self Self.Entry };

    ghost lasts: { Lasts model };

    // The entry that has this code everywhere.
    fn constant(&self, code: u8) -> Self::Entry
        requires { code < 16 }
        ensures { model.sense self.now result (λ _. code) };

    // An entry that is 1 where the fact is present and 0 elsewhere.
    fn fact(&mut self, fact: u8) -> Result<Self::Entry, Refusal>
        requires { fact < 32 }
        ensures kept { model.later self.old self.new }
        ensures gives { Gives model false self.old self.new (λ q. bit (has fact q)) result };

    // An entry that is 1 where at least one fact of the mask is present.
    fn any(&mut self, mask: u32) -> Result<Self::Entry, Refusal>
        ensures kept { model.later self.old self.new }
        ensures gives { Gives model false self.old self.new (λ q. bit (some mask q)) result };

    // An entry that is 1 where every fact of the mask is present.
    fn all(&mut self, mask: u32) -> Result<Self::Entry, Refusal>
        ensures kept { model.later self.old self.new }
        ensures gives { Gives model false self.old self.new (λ q. bit (every mask q)) result };

    // An entry that has everywhere what the table says of the values of two entries there.
    fn apply(
        &mut self,
        table: &CodeTable,
        first: Self::Entry,
        second: Self::Entry,
    ) -> Result<Self::Entry, Refusal>
        ensures kept { model.later self.old self.new }
        ensures gives { (f g : ℕ → ℕ) → model.sense self.old first f → model.sense self.old second g → Gives model false self.old self.new (λ q. cell table.now.cells (f q) (g q)) result };
}

// The entry of a command, from the top entry and the one under it.
fn make<E: Entries>(
    on: &mut E,
    tables: &EffectTables,
    command: Command,
    top: E::Entry,
    under: E::Entry,
) -> Result<E::Entry, Refusal>
    requires { Within command }
    ensures kept { E.Entries.model.later on.old on.new }
    ensures gives { Makes E.Entries.model tables.now on.old top under on.new result command }
{
    match command {
        Command::Has(fact) => on.fact(fact),
        Command::Any(mask) => on.any(mask),
        Command::All(mask) => on.all(mask),
        Command::Not => on.apply(&tables.negation, top, top),
        Command::And => on.apply(&tables.both, under, top),
        Command::Or => on.apply(&tables.either, under, top),
        Command::State(code) => Ok(on.constant(code)),
        Command::Scope => on.apply(&tables.scope, under, top),
        Command::Fail => on.apply(&tables.fail, under, top),
        Command::Join(combiner) => on.apply(&tables.combine[combiner as usize], under, top),
        Command::End => Ok(top),
    }
}

impl Rules<'_> {
    ghost use Rattle.tape.specs.Entries.{Holds, Stepped, Reads};

    // Reads the command at the start of the bytes: how many bytes it takes, or why it is refused.
    pub fn step<E: Entries>(
        &self,
        on: &mut E,
        stack: &mut Stack<E::Entry>,
        bytes: &[u8],
    ) -> Result<usize, Refusal>
        ensures kept { E.Entries.model.later on.old on.new }
        ensures some { IfOk result (λ n. 0 < n) }
        ensures there { IfOk result (λ n. n ≤ length bytes.now) }
        ensures stands { (K : Algebra) (row : Row) → Closed K → Tables K self.now.tables.now → Holds E.Entries.model K on.old stack.old row → Stepped E.Entries.model K self.now.facts row bytes.now on.old on.new stack.new result }
    {
        let (command, count) = self.next(stack, bytes)?;
        let none = on.constant(0);
        let top = stack.top(none);
        let under = stack.entry_or(1, none);
        let entry = make(on, self.tables, command, top, under)?;
        stack.put(command, entry);
        Ok(count)
    }

    // Reads a whole tape, up to the first command that is refused.
    pub fn read_all<E: Entries>(
        &self,
        on: &mut E,
        stack: &mut Stack<E::Entry>,
        tape: &[u8],
    ) -> Result<(), RefusedAt>
        ensures kept { E.Entries.model.later on.old on.new }
        ensures reads { (K : Algebra) (row : Row) → Closed K → Tables K self.now.tables.now → Holds E.Entries.model K on.old stack.old row → Reads E.Entries.model K self.now.facts (length tape.now) row 0 tape.now on.old on.new stack.new result }
    {
        // By the place, since a command says itself how far the next one is, and a refusal is told with its place; `map_err` and `?`
        // were tried, and the proof of that way out did not close.
        let mut place = 0;
        while place < tape.len() {
            match self.step(on, stack, &tape[place..]) {
                Ok(taken) => place += taken,
                Err(refusal) => return Err(refusal.at(place)),
            }
        }
        if !stack.outline.ended {
            return Err(Refusal::NoEnd.at(place));
        }
        Ok(())
    }
}
