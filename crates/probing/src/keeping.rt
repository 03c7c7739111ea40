// What a table does.
ghost use Rattle.std.specs.Prelude.{◌≡◌, ℕ, ◌+◌, ◌-◌, ◌<◌, ◌≤◌, [], map, length, take, drop, slice_index, slice_set};
ghost use Rattle.probing.specs.Table.{Distinct, Near, Sought, gap, serials, stored, wiped, number_of, numbered, grown, nth, trimmed};
ghost use Rattle.probing.specs.Model.{keys, kept, room};

use crate::table::Table;
use crate::{Key, Slot};

// The bucket that lies so many steps on from another, round a ring of n buckets.
fn round(n: usize, from: usize, steps: usize) -> usize
    requires narrow { n < 65536 }
    requires inside { from < n }
    requires few { steps < n }
    ensures within { result < n }
    ensures there { gap n from result ≡ steps }
{
    if from + steps < n {
        from + steps
    } else {
        from + steps - n
    }
}

// The bucket of the key or the first free one on its way, or none once all buckets were looked at. This function and those below
// take bare slots, and so ask that they are few: halfway through an insertion a table is not whole.
fn seek<K: Key>(slots: &[Slot<K>], key: &K) -> Option<usize>
    requires narrow { length slots.now < 65536 }
    requires led { (h : ℕ) → slice_index (serials slots.now) h ≤ length slots.now }
    ensures sought { Sought K.same K.hashed (serials slots.now) (stored slots.now) key.now result }
    ensures near { Near (length slots.now) result }
{
    let n = slots.len();
    if n == 0 {
        return None;
    }
    let home = key.hash() as usize % n;
    let mut probed = 0;
    // A loop, since that is the project's form for a search: every way out of it yields its answer by `break`.
    loop {
        let i = round(n, home, probed);
        let serial = slots[i].serial as usize;
        if serial == 0 || slots[serial - 1].key.same_as(key) {
            break Some(i);
        }
        probed += 1;
        if probed == n {
            break None;
        }
    }
}

// Frees every bucket that leads to number n or more, in one pass.
fn trim<K: Copy>(slots: &mut [Slot<K>], n: usize)
    ensures { slots.new ≡ map (trimmed n) slots.old }
{
    for slot in slots.iter_mut() {
        if slot.serial as usize > n {
            slot.serial = 0;
        }
    }
}

// Writes the key of a number, and leads a bucket to it. The two may stand in one slot.
fn put<K: Copy>(slots: &mut [Slot<K>], number: usize, bucket: usize, key: K)
    requires keyed { number < length slots.old }
    requires led { bucket < length slots.old }
    requires narrow { length slots.old < 65536 }
    ensures leads { serials slots.new ≡ slice_set (serials slots.old) bucket (number + 1) }
    ensures keeps { stored slots.new ≡ slice_set (stored slots.old) number key }
{
    slots[number].key = key;
    slots[bucket].serial = (number + 1) as u16;
}

// Every slot with the blank key and a free bucket.
pub fn wipe<K: Copy>(slots: &mut [Slot<K>], blank: K)
    ensures { slots.new ≡ wiped blank slots.old }
{
    for slot in slots.iter_mut() {
        *slot = Slot {
            key: blank,
            serial: 0,
        };
    }
}

impl<'a, K: Key> Table<'a, K> {
    // No keys: every slot is wiped.
    pub fn new(slots: &'a mut [Slot<K>], blank: K) -> Self
        requires { length slots.old < 65536 }
        ensures listed { keys result ≡ [] }
        ensures blank { result.slots.now ≡ wiped blank slots.old }
        ensures width { room result ≡ length slots.old }
    {
        wipe(slots, blank);
        Table { slots, count: 0 }
    }

    // `seek` in the table's slots. It is a method of its own since the borrow checker does not let `insert`, which has a
    // `&mut self`, lend the slots as a `&`.
    fn place(&self, key: &K) -> Option<usize>
        ensures sought { Sought K.same K.hashed (serials self.now.slots.now) (stored self.now.slots.now) key.now result }
        ensures near { Near (room self.now) result }
    {
        seek(self.slots, key)
    }

    // How many keys there are: at most as many as slots, and no two of them the same.
    pub fn count(&self) -> usize
        ensures number { result ≡ length (keys self.now) }
        ensures within { result ≤ room self.now }
        ensures apart { Distinct K.same (keys self.now) }
    {
        self.count // the keys fill the slots from the first on
    }

    // The number of the key, if it is there.
    pub fn find(&self, key: &K) -> Option<usize>
        ensures { result ≡ number_of K.same key.now (keys self.now) }
    {
        let bucket = self.place(key)?;
        let slots = &*self.slots;
        let serial = slots[bucket].serial as usize;
        if serial == 0 { None } else { Some(serial - 1) }
    }

    // The key of a number, if there is one.
    pub fn key(&self, number: usize) -> Option<K>
        ensures { result ≡ nth (keys self.now) number }
    {
        if number < self.count {
            let slots = &*self.slots;
            Some(slots[number].key)
        } else {
            None
        }
    }

    // The number of the key. A new key gets the next number where a slot is free; else it is refused, and nothing changes.
    // No key of a lower number is touched.
    pub fn insert(&mut self, key: K) -> Option<usize>
        ensures answer { result ≡ numbered K.same key (room self.old) (keys self.old) }
        ensures listed { keys self.new ≡ grown K.same key (room self.old) (keys self.old) }
        ensures older { take (length (keys self.old)) (keys self.new) ≡ keys self.old }
        ensures beyond { drop (length (keys self.new)) (kept self.new) ≡ drop (length (keys self.new)) (kept self.old) }
        ensures quiet { self.new.count ≡ self.old.count → self.new.slots.now ≡ self.old.slots.now }
        ensures width { room self.new ≡ room self.old }
    {
        let bucket = self.place(&key)?;
        let serial = self.slots[bucket].serial as usize;
        if serial != 0 {
            return Some(serial - 1);
        }
        let number = self.count;
        put(self.slots, number, bucket, key);
        self.count = number + 1;
        Some(number)
    }

    // Gives up the keys from number n on. Those below n stay, and so does what every slot keeps as its key.
    pub fn roll_back(&mut self, n: usize)
        ensures listed { keys self.new ≡ take n (keys self.old) }
        ensures stay { kept self.new ≡ kept self.old }
        ensures width { room self.new ≡ room self.old }
    {
        if n < self.count {
            trim(self.slots, n);
            self.count = n;
        }
    }

    // Gives up the newest key, if there is one.
    pub fn give_up(&mut self)
        ensures listed { keys self.new ≡ take (length (keys self.old) - 1) (keys self.old) }
        ensures stay { kept self.new ≡ kept self.old }
        ensures width { room self.new ≡ room self.old }
    {
        if self.count > 0 {
            self.roll_back(self.count - 1);
        }
    }
}
