// The commands of a tape.
#[derive(Clone, Copy, PartialEq, Eq, Debug)]
pub enum Command {
    // pushes "this fact is present"
    Has(u8),
    // pushes "at least one fact of the mask is present"
    Any(u32),
    // pushes "every fact of the mask is present"
    All(u32),
    Not,
    And,
    Or,
    // pushes a policy of one effect, by its code
    State(u8),
    // the policy where the condition on top is true, not applicable elsewhere
    Scope,
    // the policy's failed form where the condition on top is true, the policy elsewhere
    Fail,
    // the combiner's effect for the lower policy and the top one
    Join(u8),
    // the one policy that is left is the result
    End,
}

// What an entry of the stack is.
#[derive(Clone, Copy, PartialEq, Eq, Debug)]
pub enum Kind {
    Condition,
    Policy,
}
