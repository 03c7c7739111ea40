// The reader of drafts: the tape rules over a store, with codes as entries.
ghost use Rattle.std.specs.Prelude.{◌≡◌};
ghost use Rattle.diagram.specs.Entries.{store_model};
ghost use Rattle.tape.specs.declared.refusal.Refusal.TheVariants.{NoSlot};
ghost use Rattle.diagram.specs.Lasting.{store_lasts};

use crate::store::{Full, Store};
use effects::CodeTable;
use tape::{Entries, Refusal};

impl From<Full> for Refusal {
    ghost from_gives = { λ _ refusal. refusal ≡ NoSlot };

    fn from(_full: Full) -> Refusal {
        Refusal::NoSlot
    }
}

impl Entries for Store<'_> {
    type Entry = u16;

    ghost model = { store_model };

    ghost lasts = { store_lasts };

    fn constant(&self, code: u8) -> u16 {
        Store::constant(self, code)
    }

    fn fact(&mut self, fact: u8) -> Result<u16, Refusal> {
        Ok(Store::fact(self, fact)?)
    }

    fn any(&mut self, mask: u32) -> Result<u16, Refusal> {
        Ok(Store::any(self, mask)?)
    }

    fn all(&mut self, mask: u32) -> Result<u16, Refusal> {
        Ok(Store::all(self, mask)?)
    }

    fn apply(&mut self, table: &CodeTable, first: u16, second: u16) -> Result<u16, Refusal> {
        Ok(Store::apply(self, table, first, second)?)
    }
}
