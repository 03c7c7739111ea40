// The stack that a tape works on.
ghost use Rattle.std.specs.Prelude.{◌≤◌};

use crate::command::Kind;

// The kinds of the entries, the top one last at depth - 1, and whether END was read.
#[derive(Clone, Copy)]
pub struct Outline {
    pub kinds: [Kind; 32],
    pub depth: usize,
    pub ended: bool,
    ghost within: { depth ≤ 32 },
}

// At most 32 entries, the top one last; what an entry is depends on the reader. Arrays beside their depth: an `ArrayVec` is no
// `Copy`, and blanks each place that it gives up, which reading would pay for at every command; and of an array of pairs of a
// kind and an entry the check does not find that it is `Clone`.
#[derive(Clone, Copy)]
pub struct Stack<T> {
    pub outline: Outline,
    pub entries: [T; 32],
}
