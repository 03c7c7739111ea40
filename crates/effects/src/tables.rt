// An effect algebra written down as tables of codes, once; what runs tapes then reads the tables alone.
ghost use Rattle.std.specs.Prelude.{◌≤◌};
ghost use Rattle.effects.specs.Cells.{Small};

// What an operation gives for two codes: row a and column b at 16 a + b.
#[derive(Clone, Copy)]
pub struct CodeTable {
    pub cells: [u8; 256],
    // every cell is below 16
    ghost small: { Small cells },
}

// The operations of an algebra, as tables of codes. All four combiners have a table, so that one is read by its number
// alone; an ArrayVec would want a test of its length there.
#[derive(Clone, Copy)]
pub struct EffectTables {
    pub count: u8,
    pub combiner_count: u8,
    pub statable: [bool; 16],
    pub negation: CodeTable,
    pub both: CodeTable,
    pub either: CodeTable,
    pub scope: CodeTable,
    pub fail: CodeTable,
    pub combine: [CodeTable; 4],
    ghost few: { count ≤ 16 },
    ghost four: { combiner_count ≤ 4 },
}

// The questions of an algebra, as tables of 16 by 16 answers: whether a pair of codes breaks one.
#[derive(Clone, Copy)]
pub struct QuestionTables {
    pub count: u8,
    pub breaks: [[bool; 256]; 8],
    ghost few: { count ≤ 8 },
}
