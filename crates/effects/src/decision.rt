// What an effect decides, and what both algebras make of that.
ghost use Rattle.std.specs.Prelude.{◌≡◌};
ghost use Rattle.effects.specs.Decisions.{decisions_break, effects_break, either, first_but};

// What an effect decides: to permit, to deny, or neither.
#[derive(Clone, Copy, PartialEq, Eq, Debug)]
pub enum Decision {
    Permit,
    Deny,
    Neither,
}

impl Decision {
    // Whether a first and a second decision break one of the questions 1 to 5; no other number is broken.
    pub fn breaks(question: u8, first: Decision, second: Decision) -> bool
        ensures { result ≡ decisions_break question first second }
    {
        match question {
            1 => first == Decision::Permit && second != Decision::Permit,
            2 => first == Decision::Deny && second != Decision::Deny,
            3 => second == Decision::Permit && first != Decision::Permit,
            4 => first != Decision::Neither && second != first,
            5 => first != Decision::Neither && second != Decision::Neither && first != second,
            _ => false,
        }
    }
}

// An effect that decides to permit, to deny, or neither.
pub(crate) trait Decides: Copy + PartialEq {
    ghost use Rattle.effects.specs.declared.decision.Decision.{Decision};

    ghost decision: { Self → Decision };

    // What the effect decides.
    fn decision(self) -> Decision
        ensures { result ≡ decision self };
}

// Whether two effects break a question: 0 where they differ, 1 to 5 by what they decide.
pub(crate) fn breaks<E: Decides>(question: u8, first: E, second: E) -> bool
    ensures { result ≡ effects_break E.eq E.decision question first second }
{
    if question == 0 {
        first != second
    } else {
        Decision::breaks(question, first.decision(), second.decision())
    }
}

// Whether one of the two is this effect.
pub(crate) fn either<E: Copy + PartialEq>(effect: E, first: E, second: E) -> bool
    ensures { result ≡ either E.eq effect first second }
{
    first == effect || second == effect
}

// The first unless it is this effect, then the second.
pub(crate) fn first_but<E: Copy + PartialEq>(absent: E, first: E, second: E) -> E
    ensures { result ≡ first_but E.eq absent first second }
{
    if first == absent { second } else { first }
}
