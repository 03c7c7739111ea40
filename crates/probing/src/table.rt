// A table: keys in the order in which they came, and buckets that lead to them by their hash, in the same slots.
//
// Key number n stands in slot n. The serial of slot h is bucket h: 0 where it is free, else one more than the number of the key
// that it leads to. A search starts at the bucket that the key's hash names, and goes on from bucket to bucket and round.
ghost use Rattle.probing.specs.Table.{Whole};

pub use crate::keeping::wipe;
use crate::{Key, Slot};

// Keys with numbers 0, 1, 2 and on, in the order in which they came, over slots that a caller lends.
#[derive(Drop)]
pub struct Table<'a, K: Key> {
    pub(crate) slots: &'a mut [Slot<K>],
    pub(crate) count: usize,
    ghost whole: { Whole K.same K.hashed slots.now count },
}
