// An algebra that has nothing but what the interface asks.
ghost use Rattle.std.specs.Prelude.{◌≡◌};
ghost use Rattle.reading_tests.specs.Hostile.{odd, odd_questions};
ghost use Rattle.std.proofs.Common.{rules};

use effects::EffectAlgebra;

// Three effects, of which the last is not applicable; joining an effect with itself gives another one, and
// the one question is broken by every pair.
// (`shelf_tests` has another one: each crate's tests state the values of its own.)
#[derive(Clone, Copy)]
pub enum Odd {
    Low = 0,
    High = 1,
    Silent = 2,
}

impl EffectAlgebra for Odd {
    ghost effects = { odd };

    ghost questions = { odd_questions };

    ghost lawful = { Prim.search rules };

    ghost few = { Prim.search rules };

    fn count() -> u8 {
        3
    }

    fn code(self) -> u8 {
        self as u8
    }

    fn effect(code: u8) -> Odd {
        match code {
            0 => Odd::Low,
            1 => Odd::High,
            _ => Odd::Silent,
        }
    }

    fn not_applicable() -> Odd {
        Odd::Silent
    }

    fn statable(self) -> bool {
        true
    }

    fn failed(self) -> Odd {
        Odd::Low
    }

    fn combiner_count() -> u8 {
        1
    }

    // The next effect after the first, round the end.
    fn combine(_combiner: u8, first: Odd, _second: Odd) -> Odd {
        match first {
            Odd::Low => Odd::High,
            Odd::High => Odd::Silent,
            Odd::Silent => Odd::Low,
        }
    }

    fn question_count() -> u8 {
        1
    }

    fn breaks(_question: u8, _first: Odd, _second: Odd) -> bool {
        true
    }
}
