// A line of output.

// What a job command came to.
#[derive(Clone, Copy, PartialEq, Eq, Debug)]
pub enum Line {
    // a fact's number
    Declared(u8),
    // a policy's number, and how many nodes are held
    Loaded(u8, usize),
    // no request breaks the question
    Kept,
    // the first request that does
    Witness(u32),
    // an effect's code
    Code(u8),
    // a refusal's number, and its place; any number may stand there, since a line is only printed
    Refused(u8, usize),
}
