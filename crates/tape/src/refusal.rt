// What the unit refuses, each with its number.
#[derive(Clone, Copy, PartialEq, Eq, Debug)]
pub enum Refusal {
    // a name that is empty, too long, or has a byte that no name has
    BadName = 10,
    // a new name with no slot for it, or the 33rd
    NamesFull = 11,
    // a draft is open already
    DraftOpen = 20,
    // 64 policies are filed
    AllFiled = 21,
    // not this shelf's open draft
    NotOpenDraft = 22,
    // filed before END
    NotEnded = 23,
    // a byte that begins no command
    UnknownByte = 30,
    // no byte, or a command cut off before the end of its operand
    CutOff = 31,
    // an operand with a fact that is not declared
    UndeclaredFact = 32,
    // an effect that may not be stated
    NotStatable = 33,
    // a combiner that the algebra lacks
    NoCombiner = 34,
    // an entry that a command takes is missing, or of the other kind
    WrongEntry = 35,
    // the 33rd entry
    StackFull = 36,
    // END where not exactly one entry stands, or a condition
    WrongEnd = 37,
    // anything after END
    AfterEnd = 38,
    // no slot for what the command's result needs
    NoSlot = 39,
    // a tape of more than 65,535 bytes
    TapeTooLong = 40,
    // the bytes run out before END
    NoEnd = 41,
    // no such policy
    NoPolicy = 50,
    // no such question
    NoQuestion = 51,
    // a request with a fact that is not declared
    UndeclaredInRequest = 52,
    // more than 32 facts
    TooManyFacts = 53,
    // a job with an unknown command, cut short, or over 65,535 bytes
    BadJob = 60,
}

// Where a refusal is checked.
#[derive(Clone, Copy, PartialEq, Eq, Debug)]
pub enum Layer {
    Name,
    Tape,
    Draft,
    Command,
    Slots,
    Question,
    Job,
}

// A refusal with its byte place: that of the command that it is about, 0 before the first command, and
// the length of the tape where that ends too early.
#[derive(Clone, Copy, PartialEq, Eq, Debug)]
pub struct RefusedAt {
    pub refusal: Refusal,
    pub place: usize,
}
