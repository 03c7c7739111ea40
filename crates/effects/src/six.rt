// Six effects, those of XACML 3.0: an error tells which decisions it could have hidden.
ghost use Rattle.std.specs.Prelude.{◌≡◌};
ghost use Rattle.effects.specs.Six.{six, six_questions, has, meets, overrides, decision_of};
ghost use Rattle.std.proofs.Common.{rules};

use crate::algebra::EffectAlgebra;
use crate::decision::{Decides, Decision, breaks, either, first_but};

// How many effects, combiners and questions there are.
const COUNT: u8 = 6;

const COMBINERS: u8 = 3;

const QUESTIONS: u8 = 6;

#[derive(Clone, Copy, PartialEq, Eq, Debug)]
pub enum SixEffect {
    NotApplicable = 0,
    Permit = 1,
    Deny = 2,
    IndeterminateD = 3,
    IndeterminateP = 4,
    IndeterminateDP = 5,
}

// One of the two decisions, with the error that could have hidden it.
#[derive(Clone, Copy)]
struct Side {
    sure: SixEffect,
    unsure: SixEffect,
}

const DENYING: Side = Side {
    sure: SixEffect::Deny,
    unsure: SixEffect::IndeterminateD,
};

const PERMITTING: Side = Side {
    sure: SixEffect::Permit,
    unsure: SixEffect::IndeterminateP,
};

impl Side {
    fn has(self, effect: SixEffect) -> bool
        ensures { result ≡ has self effect }
    {
        [self.sure, self.unsure].contains(&effect)
    }
}

impl SixEffect {
    // Whether one of the two is the unsure effect, and the other of this side.
    fn meets(unsure: SixEffect, other: Side, first: SixEffect, second: SixEffect) -> bool
        ensures { result ≡ meets unsure other first second }
    {
        first == unsure && other.has(second) || second == unsure && other.has(first)
    }

    // The first that fits: strong if either is; an error of both sides if either is, or if the strong
    // side's error meets the weak side; the strong side's error; weak; the weak side's error.
    fn overrides(strong: Side, weak: Side, first: SixEffect, second: SixEffect) -> SixEffect
        ensures { result ≡ overrides strong weak first second }
    {
        if either(strong.sure, first, second) {
            strong.sure
        } else if either(SixEffect::IndeterminateDP, first, second) {
            SixEffect::IndeterminateDP
        } else if SixEffect::meets(strong.unsure, weak, first, second) {
            SixEffect::IndeterminateDP
        } else if either(strong.unsure, first, second) {
            strong.unsure
        } else if either(weak.sure, first, second) {
            weak.sure
        } else if either(weak.unsure, first, second) {
            weak.unsure
        } else {
            SixEffect::NotApplicable
        }
    }
}

impl Decides for SixEffect {
    ghost decision = { decision_of };

    fn decision(self) -> Decision {
        match self {
            SixEffect::Permit => Decision::Permit,
            SixEffect::Deny => Decision::Deny,
            _ => Decision::Neither,
        }
    }
}

impl EffectAlgebra for SixEffect {
    ghost effects = { six };

    ghost questions = { six_questions };

    ghost lawful = { Prim.search rules };

    ghost few = { Prim.search rules };

    fn count() -> u8 {
        COUNT
    }

    fn code(self) -> u8 {
        self as u8
    }

    fn effect(code: u8) -> SixEffect {
        match code {
            1 => SixEffect::Permit,
            2 => SixEffect::Deny,
            3 => SixEffect::IndeterminateD,
            4 => SixEffect::IndeterminateP,
            5 => SixEffect::IndeterminateDP,
            _ => SixEffect::NotApplicable,
        }
    }

    fn not_applicable() -> SixEffect {
        SixEffect::NotApplicable
    }

    fn statable(self) -> bool {
        matches!(self, SixEffect::Permit | SixEffect::Deny)
    }

    fn failed(self) -> SixEffect {
        match self {
            SixEffect::Permit => SixEffect::IndeterminateP,
            SixEffect::Deny => SixEffect::IndeterminateD,
            other => other,
        }
    }

    fn combiner_count() -> u8 {
        COMBINERS
    }

    fn combine(combiner: u8, first: SixEffect, second: SixEffect) -> SixEffect {
        match combiner {
            0 => SixEffect::overrides(DENYING, PERMITTING, first, second),
            1 => SixEffect::overrides(PERMITTING, DENYING, first, second),
            _ => first_but(SixEffect::NotApplicable, first, second),
        }
    }

    fn question_count() -> u8 {
        QUESTIONS
    }

    fn breaks(question: u8, first: SixEffect, second: SixEffect) -> bool {
        breaks(question, first, second)
    }
}
