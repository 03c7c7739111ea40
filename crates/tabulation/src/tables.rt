// From an input to its table.
ghost use Rattle.std.specs.Prelude.{◌≡◌};
ghost use Rattle.effects.specs.Codes.{codes};
ghost use Rattle.tabulation.specs.Tables.{Filled, Says, tally};

use crate::error::TabulateError;
use crate::input::{EffectSet, Input};
use crate::order;
use crate::rows::{Row, Table};
use effects::{EffectAlgebra, FourEffect, SixEffect};
use std::alloc::Global;

impl Table {
    // How many requests have the effect of this code.
    pub fn count_of(&self, code: u8) -> usize
        ensures { result ≡ tally code self.now.rows.items }
    {
        self.rows.iter().filter(|row| row.code == code).count()
    }
}

// The table at these requests, or the refusal at one of them.
fn fill<A: EffectAlgebra>(
    heap: Global,
    input: &Input,
    masks: &[u32],
) -> Result<Table, TabulateError>
    ensures { Filled (codes A.EffectAlgebra.effects) input.now masks.now result }
{
    let tables = effects::effect_tables::<A>();
    let mut rows = Vec::new(heap);
    for &mask in masks {
        let code = tape::read_with(&tables, input.facts, input.tape, mask)?;
        rows.push(Row { mask, code })?;
    }
    Ok(Table {
        effects: input.effects,
        rows,
    })
}

// The table of an input; or the input is unreadable, or its tape is refused, or memory runs out.
pub fn tabulate(heap: Global, bytes: &[u8]) -> Result<Table, TabulateError>
    ensures { Says bytes.now result }
{
    let input = Input::parse(bytes)?;
    let masks = order::requests_in_order(heap, input.facts)?;
    match input.effects {
        EffectSet::Four => fill::<FourEffect>(heap, &input, &masks),
        EffectSet::Six => fill::<SixEffect>(heap, &input, &masks),
    }
}
