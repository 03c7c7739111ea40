// What a tape is read by.
ghost use Rattle.std.specs.Prelude.{◌≤◌};

use effects::EffectTables;

// The rules that a tape is read by: the tables of an algebra, over so many declared facts.
#[derive(Clone, Copy)]
pub struct Rules<'a> {
    pub tables: &'a EffectTables,
    pub facts: u8,
    ghost few: { facts ≤ 32 },
}
