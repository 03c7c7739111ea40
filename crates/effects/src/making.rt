// The tables of an algebra.
ghost use Rattle.std.specs.Prelude.{◌≡◌, ℕ, ◌<◌, replicate, slice_set, if◌then◌else◌, Some, None, nat_lt};
ghost use Rattle.effects.specs.Codes.{codes, question_codes};
ghost use Rattle.effects.specs.Cells.{cell as cell_of, Holds};
ghost use Rattle.effects.specs.Tables.{Combines, Answers, Tables, Asked};

use crate::algebra::EffectAlgebra;
use crate::tables::{CodeTable, EffectTables, QuestionTables};
use std::array;

// What a table says of two codes; 0 where one of them is not below 16.
pub fn cell(table: &[u8; 256], first: u8, second: u8) -> u8
    ensures { result ≡ cell_of table.now first second }
{
    if first < 16 && second < 16 {
        table[first as usize * 16 + second as usize]
    } else {
        0
    }
}

// A table of 16 by 16 cells, each of them written by its row and its column.
fn table<T, F: Fn(u8, u8) -> T>(cell: F) -> [T; 256]
    requires { (a b : ℕ) → a < 16 → b < 16 → F.pre cell a b }
    ensures { Holds (F.post cell) result }
{
    array::from_fn(|n| cell((n / 16) as u8, (n % 16) as u8))
}

// The same of cells that are codes.
fn code_table<F: Fn(u8, u8) -> u8>(cell: F) -> CodeTable
    requires called { (a b : ℕ) → a < 16 → b < 16 → F.pre cell a b }
    requires codes { (a b code : ℕ) → a < 16 → b < 16 → F.post cell a b code → code < 16 }
    ensures { Holds (F.post cell) result.cells }
{
    CodeTable { cells: table(cell) }
}

// The operations on conditions are a few cells set to 1. Written cell by cell, like the others, they cost some two thousand
// instructions more, which every `read` and every new shelf pays.

// NOT: the value is both row and column.
fn negation() -> CodeTable
    ensures { result.cells ≡ slice_set (replicate 256 0) 0 1 }
{
    let mut cells = [0; 256];
    cells[0] = 1;
    CodeTable { cells }
}

// AND.
fn both() -> CodeTable
    ensures { result.cells ≡ slice_set (replicate 256 0) 17 1 }
{
    let mut cells = [0; 256];
    cells[17] = 1;
    CodeTable { cells }
}

// OR.
fn either() -> CodeTable
    ensures { result.cells ≡ slice_set (slice_set (slice_set (replicate 256 0) 1 1) 16 1) 17 1 }
{
    let mut cells = [0; 256];
    cells[1] = 1;
    cells[16] = 1;
    cells[17] = 1;
    CodeTable { cells }
}

// The effect of a code, if there is one.
fn effect<A: EffectAlgebra>(code: u8) -> Option<A>
    ensures { result ≡ (if nat_lt code A.EffectAlgebra.effects.count then Some (A.EffectAlgebra.effects.effect code) else None) }
{
    (code < A::count()).then(|| A::effect(code))
}

// Writes the effects of an algebra down as tables. What NOT, AND and OR do not reach is 0, and so are FAIL's rows and a combiner's
// rows and columns from the count on, and all of a combiner that this algebra lacks.
pub fn effect_tables<A: EffectAlgebra>() -> EffectTables
    ensures { Tables (codes A.EffectAlgebra.effects) result }
{
    let not_applicable = A::not_applicable().code();
    EffectTables {
        count: A::count(),
        combiner_count: A::combiner_count(),
        statable: array::from_fn(|code| effect::<A>(code as u8).is_some_and(
            |effect| effect.statable(),
        )),
        negation: negation(),
        both: both(),
        either: either(),
        scope: code_table(|policy, condition| if condition == 1 {
            policy
        } else {
            not_applicable
        }),
        fail: code_table(|policy, condition| match effect::<A>(policy) {
            Some(effect) if condition == 1 => effect.failed().code(),
            Some(_) => policy,
            None => 0,
        }),
        combine: [0, 1, 2, 3].map(
            |combiner| -> CodeTable
                ensures { Combines (codes A.EffectAlgebra.effects) combiner result.cells }
            {
                if combiner >= A::combiner_count() {
                    return CodeTable { cells: [0; 256] };
                }
                code_table(|first, second| match (effect::<A>(first), effect::<A>(second)) {
                    (Some(first), Some(second)) => A::combine(combiner, first, second).code(),
                    _ => 0,
                })
            },
        ),
    }
}

// Writes the questions of an algebra down as tables. One that it lacks, nothing breaks.
pub fn question_tables<A: EffectAlgebra>() -> QuestionTables
    ensures { Asked A.EffectAlgebra.effects.count (question_codes A.EffectAlgebra.effects A.EffectAlgebra.questions) result }
{
    QuestionTables {
        count: A::question_count(),
        breaks: [0, 1, 2, 3, 4, 5, 6, 7].map(
            |question| -> [bool; 256]
                ensures { Answers A.EffectAlgebra.effects.count (question_codes A.EffectAlgebra.effects A.EffectAlgebra.questions) question result }
            {
                if question >= A::question_count() {
                    return [false; 256];
                }
                table(|first, second| match (effect::<A>(first), effect::<A>(second)) {
                    (Some(first), Some(second)) => A::breaks(question, first, second),
                    _ => false,
                })
            },
        ),
    }
}
