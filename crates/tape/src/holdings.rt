// The worked policies as a theorem. (Crate `holdings` has a longer list, which needs a shelf; this one is for who has tapes alone.)
ghost use Rattle.tape.specs.Holdings.{Every, Holdings as holdings_of};

// Every statement about the worked policies holds. The contract is the theorem, and nothing is computed.
#[tactic(auto, unfolding(crate::specs::Tape::read_answer, crate::specs::Tape::tape_from, crate::specs::Tape::next_command, crate::specs::Tape::checked, crate::specs::Tape::ended, crate::specs::Tape::kinds, crate::specs::Tape::values))]
pub fn holdings_stand()
    ensures { Every holdings_of }
{}
