// What a shelf keeps beside its tables and its store.
use arrayvec::ArrayVec;

#[derive(Drop)]
pub struct State {
    // given at making
    pub(crate) number: u32,
    // how many drafts were given out, modulo 2^32
    pub(crate) given: u32,
    // the codes of the filed policies
    pub(crate) roots: ArrayVec<u16, 64>,
    // what was held when the open draft was opened, if one is open
    pub(crate) before: Option<usize>,
}
