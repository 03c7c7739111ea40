// A table of effects.
use crate::input::EffectSet;

// A request, and the code of the effect there.
#[derive(Clone, Copy)]
pub struct Row {
    pub mask: u32,
    pub code: u8,
}

// The effects of a tape: a row for each request, in the request order.
#[derive(Drop)]
pub struct Table {
    pub effects: EffectSet,
    pub rows: Vec<Row>,
}
