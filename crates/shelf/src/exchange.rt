// The calls as values, and their answers.
use crate::draft::DraftId;
use probing::name::Name;
use tape::{Refusal, RefusedAt};

#[derive(Clone, Copy, Debug)]
pub enum Call<'a> {
    Declare(Name),
    Find(Name),
    Open,
    Feed(DraftId, &'a [u8]),
    File(DraftId),
    Abandon(DraftId),
    Load(&'a [u8]),
    Ask(u8, u32),
    Shape(u8),
    Compare(u8, u8, u8),
    Held,
}

#[derive(Clone, Copy, PartialEq, Eq, Debug)]
pub enum Answer {
    Fact(u8),
    Unknown,
    Opened(DraftId),
    Took(usize),
    Filed(u8),
    Abandoned,
    Loaded(u8, usize),
    Code(u8),
    Shaped(u16),
    Kept,
    Witness(u32),
    Holding(usize),
    Refused(Refusal),
    RefusedThere(RefusedAt),
}
