// A guard over scratch slots that leaves them blank.
ghost use Rattle.std.specs.Prelude.{◌≡◌};
ghost use Rattle.probing.specs.Table.{wiped};

use crate::Slot;
use crate::table::wipe;

// Slots that a caller lends as scratch. When the guard goes, on whatever way, every slot that it holds has the blank key and
// the serial 0.
pub struct Guard<'a, K: Copy> {
    pub slots: &'a mut [Slot<K>],
    pub blank: K,
}

impl<K: Copy> Drop for Guard<'_, K> {
    fn drop(self)
        ensures { self.exit.0.now ≡ wiped self.entry.blank self.entry.slots.now }
    {
        let Guard { slots, blank } = self;
        wipe(slots, blank);
    }
}
