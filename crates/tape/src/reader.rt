// Direct reading: the rules at one request.
ghost use Rattle.std.specs.Prelude.{◌≡◌};
ghost use Rattle.effects.specs.Codes.{Codes as Algebra, Closed, codes};
ghost use Rattle.effects.specs.Tables.{Tables};
ghost use Rattle.tape.specs.Tape.{read_answer};
ghost use Rattle.tape.specs.Readers.{at_model, at_lasts};

use crate::at_request::AtRequest;
use crate::decode::beyond;
use crate::entries::Entries;
use crate::refusal::{Refusal, RefusedAt};
use crate::rules::Rules;
use crate::stack::Stack;
use effects::{CodeTable, EffectAlgebra, EffectTables};

// The most bytes of a tape.
pub const LONGEST_TAPE: usize = 65535;

impl Entries for AtRequest {
    type Entry = u8;

    ghost model = { at_model };

    ghost lasts = { at_lasts };

    fn constant(&self, code: u8) -> u8 {
        code
    }

    fn fact(&mut self, fact: u8) -> Result<u8, Refusal> {
        Ok(u8::from((self.request >> fact) % 2 == 1))
    }

    fn any(&mut self, mask: u32) -> Result<u8, Refusal> {
        Ok(u8::from(mask & self.request != 0))
    }

    fn all(&mut self, mask: u32) -> Result<u8, Refusal> {
        Ok(u8::from(mask & self.request == mask))
    }

    fn apply(&mut self, table: &CodeTable, first: u8, second: u8) -> Result<u8, Refusal> {
        Ok(effects::cell(&table.cells, first, second))
    }
}

// Reads a tape at one request by an algebra's tables: the code of its policy's effect there.
#[tactic(auto, unfolding(crate::specs::Tape::read_answer))]
pub fn read_with(
    tables: &EffectTables,
    facts: u8,
    tape: &[u8],
    request: u32,
) -> Result<u8, RefusedAt>
    ensures { (K : Algebra) → Closed K → Tables K tables.now → result ≡ read_answer K facts tape.now request }
{
    if facts > 32 {
        return Err(Refusal::TooManyFacts.at(0));
    }
    if beyond(facts, request) {
        return Err(Refusal::UndeclaredInRequest.at(0));
    }
    if tape.len() > LONGEST_TAPE {
        return Err(Refusal::TapeTooLong.at(0));
    }
    let mut on = AtRequest { request };
    let mut stack = Stack::empty(0u8);
    Rules { tables, facts }.read_all(&mut on, &mut stack, tape)?;
    Ok(stack.top(0))
}

// Reads a tape at one request: the code of its policy's effect there.
pub fn read<A: EffectAlgebra>(facts: u8, tape: &[u8], request: u32) -> Result<u8, RefusedAt>
    ensures { result ≡ read_answer (codes A.EffectAlgebra.effects) facts tape.now request }
{
    let tables = effects::effect_tables::<A>();
    read_with(&tables, facts, tape, request)
}
