// Drafts.

// A draft's two numbers: its shelf's, and how many drafts that shelf had given out before it, modulo 2^32.
#[derive(Clone, Copy, PartialEq, Eq, Debug)]
pub struct DraftId {
    pub shelf: u32,
    pub count: u32,
}

// A draft of a policy. It is neither `Drop` nor `Copy`: each draft has to be filed or abandoned.
pub struct Draft {
    pub(crate) id: DraftId,
}
