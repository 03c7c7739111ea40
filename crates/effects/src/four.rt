// Four effects, in the manner of Hughes and Bultan: an error anywhere is an error of the whole.
ghost use Rattle.std.specs.Prelude.{◌≡◌};
ghost use Rattle.effects.specs.Four.{four, four_questions, overrides, only_one, decision_of};
ghost use Rattle.std.proofs.Common.{rules};

use crate::algebra::EffectAlgebra;
use crate::decision::{Decides, Decision, breaks, either, first_but};

// How many effects, combiners and questions there are.
const COUNT: u8 = 4;

const COMBINERS: u8 = 4;

const QUESTIONS: u8 = 6;

#[derive(Clone, Copy, PartialEq, Eq, Debug)]
pub enum FourEffect {
    NotApplicable = 0,
    Permit = 1,
    Deny = 2,
    Error = 3,
}

impl FourEffect {
    // Error if either is, else the strong effect if either is, else the weak one if either is.
    fn overrides(
        strong: FourEffect,
        weak: FourEffect,
        first: FourEffect,
        second: FourEffect,
    ) -> FourEffect
        ensures { result ≡ overrides strong weak first second }
    {
        if either(FourEffect::Error, first, second) {
            FourEffect::Error
        } else if either(strong, first, second) {
            strong
        } else if either(weak, first, second) {
            weak
        } else {
            FourEffect::NotApplicable
        }
    }

    // If one is not applicable, the other; else an error.
    fn only_one(first: FourEffect, second: FourEffect) -> FourEffect
        ensures { result ≡ only_one first second }
    {
        match (first, second) {
            (FourEffect::NotApplicable, other) | (other, FourEffect::NotApplicable) => other,
            _ => FourEffect::Error,
        }
    }
}

impl Decides for FourEffect {
    ghost decision = { decision_of };

    fn decision(self) -> Decision {
        match self {
            FourEffect::Permit => Decision::Permit,
            FourEffect::Deny => Decision::Deny,
            FourEffect::NotApplicable | FourEffect::Error => Decision::Neither,
        }
    }
}

impl EffectAlgebra for FourEffect {
    ghost effects = { four };

    ghost questions = { four_questions };

    ghost lawful = { Prim.search rules };

    ghost few = { Prim.search rules };

    fn count() -> u8 {
        COUNT
    }

    fn code(self) -> u8 {
        self as u8
    }

    fn effect(code: u8) -> FourEffect {
        match code {
            1 => FourEffect::Permit,
            2 => FourEffect::Deny,
            3 => FourEffect::Error,
            _ => FourEffect::NotApplicable,
        }
    }

    fn not_applicable() -> FourEffect {
        FourEffect::NotApplicable
    }

    fn statable(self) -> bool {
        matches!(self, FourEffect::Permit | FourEffect::Deny)
    }

    fn failed(self) -> FourEffect {
        FourEffect::Error
    }

    fn combiner_count() -> u8 {
        COMBINERS
    }

    fn combine(combiner: u8, first: FourEffect, second: FourEffect) -> FourEffect {
        match combiner {
            0 => FourEffect::overrides(FourEffect::Deny, FourEffect::Permit, first, second),
            1 => FourEffect::overrides(FourEffect::Permit, FourEffect::Deny, first, second),
            2 => first_but(FourEffect::NotApplicable, first, second),
            _ => FourEffect::only_one(first, second),
        }
    }

    fn question_count() -> u8 {
        QUESTIONS
    }

    fn breaks(question: u8, first: FourEffect, second: FourEffect) -> bool {
        breaks(question, first, second)
    }
}
