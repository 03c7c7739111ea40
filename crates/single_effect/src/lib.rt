// The smallest algebra: one effect, and nothing that the interface does not ask for. The examples of reading and of a shelf use
// it, so that neither rests on what an algebra need not have.
#![tactic(auto)]

ghost use Rattle.std.proofs.Common.{rules};
ghost use Rattle.single_effect.specs.Single.{single, single_questions};

use effects::EffectAlgebra;

// One effect, no combiner, no question.
#[derive(Clone, Copy)]
pub enum Single {
    Only,
}

impl EffectAlgebra for Single {
    ghost effects = { single };

    ghost questions = { single_questions };

    ghost lawful = { Prim.search rules };

    ghost few = { Prim.search rules };

    fn count() -> u8 {
        1
    }

    fn code(self) -> u8 {
        0
    }

    fn effect(_code: u8) -> Single {
        Single::Only
    }

    fn not_applicable() -> Single {
        Single::Only
    }

    fn statable(self) -> bool {
        true
    }

    fn failed(self) -> Single {
        Single::Only
    }

    fn combiner_count() -> u8 {
        0
    }

    fn combine(_combiner: u8, _first: Single, _second: Single) -> Single {
        Single::Only
    }

    fn question_count() -> u8 {
        0
    }

    fn breaks(_question: u8, _first: Single, _second: Single) -> bool {
        false
    }
}
