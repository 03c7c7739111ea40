// The worked policies as a theorem.
#![tactic(auto)]

ghost use Rattle.holdings.specs.Holdings.{Every, Holdings as holdings_of};

// Every statement about the worked policies holds. The contract is the theorem, and nothing is computed.
pub fn holdings_stand()
    ensures { Every holdings_of }
{}
