// How diagrams are built: exactly the cofactors of a result are inserted, each once.
ghost use Rattle.std.specs.Prelude.{◌≡◌, ℕ, ◌+◌, ◌-◌, ◌<◌, ◌≤◌, OnErr};
ghost use Rattle.effects.specs.Cells.{cell as cell_of};
ghost use Rattle.effects.specs.Tables.{bit};
ghost use Rattle.tape.specs.Requests.{has, any as some, all as every_of};
ghost use Rattle.diagram.specs.Counted.{Same};
ghost use Rattle.diagram.specs.Tree.{says, Neat, mk, applied, ladder as ladder_of};
ghost use Rattle.diagram.specs.Nodes.{trees, meant, tested, inserted};
ghost use Rattle.diagram.specs.Building.{Answer};
ghost use Rattle.diagram.specs.Stores.{nodes, held, slots, meaning, Later, Outcome};

use crate::store::{FACTS, Full, Store};
use effects::{CodeTable, cell};
use probing::node::Node;

// That a code is one of the store's, and what it tests, is asked by each function here: of a bare number no type can say it,
// since it is about a store that grows meanwhile.
impl Store<'_> {
    // The code of a test of a fact over two codes: theirs where they are the same, one that is there, or a new one.
    fn test(&mut self, fact: u8, low: u16, high: u16) -> Result<u16, Full>
        requires low_below { low < 16 + held self.old }
        requires high_below { high < 16 + held self.old }
        requires fact_below { fact < 32 }
        requires low_later { Neat 32 (fact + 1) (meant (nodes self.old) low) }
        requires high_later { Neat 32 (fact + 1) (meant (nodes self.old) high) }
        ensures width { slots self.new ≡ slots self.old }
        ensures gives { Answer 32 (slots self.old) (nodes self.old) (nodes self.new)
            (tested (trees (nodes self.old)) fact (meant (nodes self.old) low) (meant (nodes self.old) high))
            (mk fact (meant (nodes self.old) low) (meant (nodes self.old) high)) result }
        ensures still { OnErr result (nodes self.new ≡ nodes self.old) }
    {
        if low == high {
            return Ok(low);
        }
        let number = self.unique.insert(Node { fact, low, high }).ok_or(Full)?;
        Ok(16 + number as u16)
    }

    // The code of an operation on two codes that test no fact before `from`.
    fn combine(&mut self, table: &CodeTable, first: u16, second: u16, from: u8) -> Result<u16, Full>
        requires first_below { first < 16 + held self.old }
        requires second_below { second < 16 + held self.old }
        requires from_below { from ≤ 32 }
        requires first_later { Neat 32 from (meant (nodes self.old) first) }
        requires second_later { Neat 32 from (meant (nodes self.old) second) }
        ensures width { slots self.new ≡ slots self.old }
        ensures gives { Answer 32 (slots self.old) (nodes self.old) (nodes self.new)
            (inserted (trees (nodes self.old)) (applied (cell_of table.now.cells) (32 - from) from (meant (nodes self.old) first) (meant (nodes self.old) second)))
            (applied (cell_of table.now.cells) (32 - from) from (meant (nodes self.old) first) (meant (nodes self.old) second)) result }
    {
        if first < 16 && second < 16 {
            return Ok(cell(&table.cells, first as u8, second as u8) as u16);
        }
        let sides = self.split(first, second);
        let low = self.combine(table, sides.first.low, sides.second.low, sides.fact + 1)?;
        let high = self.combine(table, sides.first.high, sides.second.high, sides.fact + 1)?;
        self.test(sides.fact, low, high)
    }

    // The code of 1 where every, or any, fact of the mask from `from` on is present, built from the highest fact down. Which
    // of the two is a flag: a closure for the one line in which they differ would have to say in a clause what it builds.
    fn ladder(&mut self, mask: u32, every: bool, from: u8) -> Result<u16, Full>
        requires below { from ≤ 32 }
        ensures width { slots self.new ≡ slots self.old }
        ensures gives { Answer 32 (slots self.old) (nodes self.old) (nodes self.new)
            (inserted (trees (nodes self.old)) (ladder_of every mask (32 - from) from)) (ladder_of every mask (32 - from) from) result }
    {
        if from >= FACTS {
            return Ok(u16::from(every));
        }
        let rest = self.ladder(mask, every, from + 1)?;
        if (mask >> from) % 2 == 0 {
            return Ok(rest);
        }
        if every {
            self.test(from, 0, rest)
        } else {
            self.test(from, rest, 1)
        }
    }

    // The code of 1 where every, or any, fact of the mask is present; refused with the store as it was. `apply` undoes in the
    // same three lines, which a function over both would not make shorter.
    fn of_mask(&mut self, mask: u32, every: bool) -> Result<u16, Full>
        ensures gives { (F : ℕ → ℕ) → Same 32 (says (ladder_of every mask 32 0)) F → Outcome self.old F self.new result }
    {
        let start = self.unique.count();
        let made = self.ladder(mask, every, 0);
        if made.is_err() {
            self.unique.roll_back(start);
        }
        made
    }

    // The code of 1 where the fact is present and 0 elsewhere.
    pub fn fact(&mut self, fact: u8) -> Result<u16, Full>
        requires below { fact < 32 }
        ensures later { Later self.old self.new }
        ensures gives { Outcome self.old (λ q. bit (has fact q)) self.new result }
    {
        self.test(fact, 0, 1)
    }

    // The code of 1 where at least one fact of the mask is present.
    pub fn any(&mut self, mask: u32) -> Result<u16, Full>
        ensures later { Later self.old self.new }
        ensures gives { Outcome self.old (λ q. bit (some mask q)) self.new result }
    {
        self.of_mask(mask, false)
    }

    // The code of 1 where every fact of the mask is present.
    pub fn all(&mut self, mask: u32) -> Result<u16, Full>
        ensures later { Later self.old self.new }
        ensures gives { Outcome self.old (λ q. bit (every_of mask q)) self.new result }
    {
        self.of_mask(mask, true)
    }

    // The code that has at every request what the table says of the meanings of two codes there.
    pub fn apply(&mut self, table: &CodeTable, first: u16, second: u16) -> Result<u16, Full>
        ensures later { Later self.old self.new }
        ensures gives { (f g : ℕ → ℕ) → Same 32 (meaning self.old first) f → Same 32 (meaning self.old second) g → Outcome self.old (λ q. cell_of table.now.cells (f q) (g q)) self.new result }
    {
        let a = self.known(first);
        let b = self.known(second);
        let before = self.unique.count();
        let made = self.combine(table, a, b, 0);
        if made.is_err() {
            self.unique.roll_back(before);
        }
        made
    }
}
