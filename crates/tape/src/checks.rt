// The tests that a command passes before it works on the stack, and the stack after it.
ghost use Rattle.std.specs.Prelude.{◌≡◌, ◌-◌, ◌<◌, ◌≤◌, true, false, [], ◌∷◌, length, IfOk, OnOk, IfSome, IfNone, OnSome, nat_le, slice_get, slice_index_or};
ghost use Rattle.tape.specs.Tape.{fits, first_of, operand_tests, stack_tests, checked};
ghost use Rattle.tape.specs.Entries.{of_tables, kinds_on, entries_on, Within, Room, Put};

use crate::command::{Command, Kind};
use crate::decode::beyond;
use crate::refusal::Refusal;
use crate::rules::Rules;
use crate::stack::{Outline, Stack};

impl Outline {
    // Where what lies so many under the top stands, if anything does.
    fn place(&self, below: usize) -> Option<usize>
        ensures there { IfSome result (λ place. (below < self.now.depth) × (place ≡ self.now.depth - below - 1)) }
        ensures past { IfNone result (self.now.depth ≤ below) }
    {
        self.depth.checked_sub(below)?.checked_sub(1)
    }
}

impl<T: Copy> Stack<T> {
    // A stack with no entry.
    pub fn empty(none: T) -> Stack<T>
        ensures bare { result.outline.depth ≡ 0 }
        ensures unended { result.outline.ended ≡ false }
    {
        let outline = Outline {
            kinds: [Kind::Condition; 32],
            depth: 0,
            ended: false,
        };
        Stack {
            outline,
            entries: [none; 32],
        }
    }

    // The top entry, or `none` where there is none.
    pub fn top(&self, none: T) -> T
        ensures { result ≡ slice_index_or (entries_on self.now) 0 none }
    {
        self.entry_or(0, none)
    }

    // The entry so many under the top one, or `none`.
    pub(crate) fn entry_or(&self, below: usize, none: T) -> T
        ensures { result ≡ slice_index_or (entries_on self.now) below none }
    {
        match self.outline.place(below) {
            Some(place) => self.entries[place],
            None => none,
        }
    }

    // The kind of the entry so many under the top one.
    fn kind(&self, below: usize) -> Option<Kind>
        ensures said { result ≡ slice_get (kinds_on self.now) below }
        ensures there { OnSome result (below < self.now.outline.depth) }
    {
        Some(self.outline.kinds[self.outline.place(below)?])
    }

    // Whether one more entry would be the 33rd.
    fn is_full(&self) -> bool
        ensures { result ≡ nat_le 32 (length (kinds_on self.now)) }
    {
        self.outline.depth >= 32
    }

    // Whether the top entry and the one under it are of these kinds.
    fn tops(&self, top: Kind, under: Kind) -> bool
        ensures said { result ≡ fits (top ∷ under ∷ []) (kinds_on self.now) }
        ensures there { result ≡ true → 2 ≤ self.now.outline.depth }
    {
        self.kind(0) == Some(top) && self.kind(1) == Some(under)
    }

    // Refuses a command by the entries that it finds. By the command first: what decoding knows of it is then not asked again.
    fn check(&self, command: Command) -> Result<(), Refusal>
        ensures said { result ≡ first_of (stack_tests (kinds_on self.now) command) (tt {0}) }
        ensures safe { OnOk result (Room command self.now.outline.depth) }
    {
        let (fitting, refusal) = match command {
            Command::Has(_) | Command::Any(_) | Command::All(_) | Command::State(_) => {
                (!self.is_full(), Refusal::StackFull)
            }
            Command::Not => (self.kind(0) == Some(Kind::Condition), Refusal::WrongEntry),
            Command::And | Command::Or => {
                (
                    self.tops(Kind::Condition, Kind::Condition),
                    Refusal::WrongEntry,
                )
            }
            Command::Scope | Command::Fail => {
                (
                    self.tops(Kind::Condition, Kind::Policy),
                    Refusal::WrongEntry,
                )
            }
            Command::Join(_) => (self.tops(Kind::Policy, Kind::Policy), Refusal::WrongEntry),
            Command::End => (
                self.kind(0) == Some(Kind::Policy) && self.outline.depth == 1,
                Refusal::WrongEnd,
            ),
        };
        if fitting { Ok(()) } else { Err(refusal) }
    }

    // Takes what a command takes, and leaves its entry.
    #[tactic(auto, using(crate::proofs::Tops::put_on_top))]
    pub(crate) fn put(&mut self, command: Command, entry: T)
        requires { Room command self.old.outline.depth }
        ensures { Put command entry self.old self.new }
    {
        let at = self.outline.depth - command.taken();
        self.entries[at] = entry;
        self.outline.kinds[at] = command.leaves();
        self.outline.depth = at + 1;
        if command.ends() {
            self.outline.ended = true;
        }
    }
}

impl Rules<'_> {
    // Refuses an operand that the facts or the algebra lack.
    fn check_operand(&self, command: Command) -> Result<(), Refusal>
        ensures said { result ≡ first_of (operand_tests (of_tables self.now.tables.now) self.now.facts command) (tt {0}) }
        ensures safe { OnOk result (Within command) }
    {
        match command {
            Command::Has(fact) if fact >= self.facts => Err(Refusal::UndeclaredFact),
            Command::Any(mask) | Command::All(mask) if beyond(self.facts, mask) => {
                Err(Refusal::UndeclaredFact)
            }
            Command::State(code)
                if code >= self.tables.count || !self.tables.statable[code as usize] => {
                Err(Refusal::NotStatable)
            }
            Command::Join(combiner) if combiner >= self.tables.combiner_count => {
                Err(Refusal::NoCombiner)
            }
            _ => Ok(()),
        }
    }

    // The command at the start of the bytes, with the bytes that it takes.
    #[tactic(auto, unfolding(crate::specs::Tape::checked))]
    pub(crate) fn next<T: Copy>(
        &self,
        stack: &Stack<T>,
        bytes: &[u8],
    ) -> Result<(Command, usize), Refusal>
        ensures said { result ≡ checked (of_tables self.now.tables.now) self.now.facts stack.now.outline.ended (kinds_on stack.now) bytes.now }
        ensures within { IfOk result (λ d. Within d.0) }
        ensures room { IfOk result (λ d. Room d.0 stack.now.outline.depth) }
        ensures some { IfOk result (λ d. 0 < d.1) }
        ensures there { IfOk result (λ d. d.1 ≤ length bytes.now) }
    {
        if stack.outline.ended {
            return Err(Refusal::AfterEnd);
        }
        let (command, count) = Command::decode(bytes)?;
        self.check_operand(command)?;
        stack.check(command)?;
        Ok((command, count))
    }
}
