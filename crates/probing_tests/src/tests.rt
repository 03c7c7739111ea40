// What the crate does on examples.
ghost use Rattle.std.specs.Prelude.{◌≡◌, ℕ, ◌<◌, length, ◌==◌};
ghost use Rattle.probing.specs.Kinds.{no_pair};
ghost use Rattle.probing.specs.Table.{wiped};
ghost use Rattle.std.proofs.Common.{rules};

use probing::guard::Guard;
use probing::name::Name;
use probing::node::Node;
use probing::pair::Pair;
use probing::table::Table;
use probing::{Key, Slot};
use std::process::Abort;
use std::test::Fail;

// Junk, as lent memory may hold it.
const JUNK: Slot<Pair> = Slot {
    key: Pair {
        first: 7,
        second: 7,
    },
    serial: 9,
};

fn pair(first: u16) -> Pair {
    Pair { first, second: 1 }
}

// A kind of key all of whose keys have one hash.
#[derive(Clone, Copy, PartialEq, Eq, Debug)]
struct Level {
    code: u8,
}

impl Key for Level {
    ghost same = { λ x y. (x.code == y.code) };

    ghost hashed = { λ _. 7 };

    ghost reflexive = { Prim.search rules };

    ghost symmetric = { Prim.search rules };

    ghost transitive = { Prim.search rules };

    ghost even = { Prim.search rules };

    fn same_as(&self, other: &Level) -> bool {
        self == other
    }

    fn hash(&self) -> u32 {
        7
    }
}

// A kind of key for which two keys may be the same that are not `==`: the rank alone says.
#[derive(Clone, Copy, PartialEq, Eq, Debug)]
struct Ranked {
    rank: u8,
    label: u8,
}

impl Key for Ranked {
    ghost same = { λ x y. (x.rank == y.rank) };

    ghost hashed = { λ x. x.rank };

    ghost reflexive = { Prim.search rules };

    ghost symmetric = { Prim.search rules };

    ghost transitive = { Prim.search rules };

    ghost even = { Prim.search rules };

    fn same_as(&self, other: &Ranked) -> bool {
        self.rank == other.rank
    }

    fn hash(&self) -> u32 {
        self.rank as u32
    }
}

#[test]
fn no_slots(rt: HostRuntime) {
    let mut slots = [JUNK; 0];
    let mut table = Table::new(&mut slots, Pair::default());
    assert_eq!(rt; table.count(), 0);
    assert_eq!(rt; table.find(&pair(1)), None);
    assert_eq!(rt; table.insert(pair(1)), None);
    table.give_up();
    assert_eq!(rt; table.count(), 0);
}

#[test]
fn one_slot(rt: HostRuntime) {
    let mut slots = [JUNK; 1];
    let mut table = Table::new(&mut slots, Pair::default());
    assert_eq!(rt; table.insert(pair(1)), Some(0));
    assert_eq!(rt; table.insert(pair(1)), Some(0));
    assert_eq!(rt; table.insert(pair(2)), None);
    table.give_up();
    assert_eq!(rt; table.find(&pair(1)), None);
    assert_eq!(rt; table.insert(pair(2)), Some(0));
}

#[test]
fn all_slots(rt: HostRuntime) -> Result<(), Fail> {
    let mut slots = [JUNK; 5];
    let mut table = Table::new(&mut slots, Pair::default());
    for first in 0..5 {
        assert_eq!(rt; table.insert(pair(first)), Some(first as usize));
    }
    assert_eq!(rt; table.insert(pair(5)), None);
    table.roll_back(2);
    assert_eq!(rt; table.find(&pair(1)), Some(1));
    assert_eq!(rt; table.find(&pair(2)), None);
    assert_eq!(rt; table.key(1), Some(pair(1)));
    assert_eq!(rt; table.key(2), None);
    Ok(())
}

// Every search starts at bucket 7 % 3 = 1, and so goes round.
#[test]
fn one_hash(rt: HostRuntime) {
    let blank = Level { code: 0 };
    let mut slots = [Slot {
        key: blank,
        serial: 1,
    }; 3];
    let mut table = Table::new(&mut slots, blank);
    assert_eq!(rt; table.insert(Level { code: 3 }), Some(0));
    assert_eq!(rt; table.insert(Level { code: 1 }), Some(1));
    assert_eq!(rt; table.insert(Level { code: 4 }), Some(2));
    assert_eq!(rt; table.insert(Level { code: 9 }), None);
    assert_eq!(rt; table.find(&Level { code: 4 }), Some(2));
    table.roll_back(1);
    assert_eq!(rt; table.find(&Level { code: 4 }), None);
}

// The first of two keys that are the same stays, though they are not equal.
#[test]
fn same_but_not_equal(rt: HostRuntime) {
    let first = Ranked { rank: 3, label: 1 };
    let second = Ranked { rank: 3, label: 2 };
    let mut slots = [Slot {
        key: second,
        serial: 1,
    }; 2];
    let mut table = Table::new(&mut slots, second);
    assert_eq!(rt; table.insert(first), Some(0));
    assert_eq!(rt; table.insert(second), Some(0));
    assert_eq!(rt; table.find(&second), Some(0));
    assert_eq!(rt; table.key(0), Some(first));
    assert_eq!(rt; table.count(), 1);
}

// The bytes beyond a name's length take part in nothing, nor does what a length says beyond sixteen.
#[test]
fn names(rt: HostRuntime) {
    let bytes = *b"faculty-of-arts!";
    let short = Name { len: 7, bytes };
    let padded = Name {
        len: 7,
        bytes: *b"faculty\0\0\0\0\0\0\0\0\0",
    };
    let longer = Name { len: 8, bytes };
    let whole = Name { len: 16, bytes };
    let over = Name { len: 200, bytes };
    assert!(rt; short == padded && short.hash() == padded.hash());
    assert!(rt; whole == over && whole.hash() == over.hash());
    assert!(rt; short != longer && longer != whole);
    let mut slots = [Slot {
        key: over,
        serial: 65535,
    }; 3];
    let mut table = Table::new(&mut slots, Name::default());
    assert_eq!(rt; table.insert(short), Some(0));
    assert_eq!(rt; table.insert(over), Some(1));
    assert_eq!(rt; table.find(&padded), Some(0));
    assert_eq!(rt; table.find(&whole), Some(1));
    assert_eq!(rt; table.find(&longer), None);
}

// Keeps a pair and its mirror image in a table over the front of the scratch.
fn mirrored(scratch: &mut [Slot<Pair>], pair: Pair) -> Option<usize>
    ensures { scratch.new ≡ wiped no_pair scratch.old }
{
    let guard = Guard {
        slots: scratch,
        blank: Pair::default(),
    };
    let n = guard.slots.len().min(65535);
    let mut seen = Table::new(&mut guard.slots[0..n], Pair::default());
    let first = seen.insert(pair)?;
    let second = seen.insert(Pair {
        first: pair.second,
        second: pair.first,
    })?;
    Some(first.max(second))
}

// More slots than a table takes: all of them are blank after, whether the search went through or was refused.
#[test]
fn guarded(rt: HostRuntime) {
    let mut one = [JUNK; 1];
    assert_eq!(rt;
        mirrored(
            &mut one,
            Pair {
                first: 1,
                second: 2,
            },
        ),
        None
    );
    assert_eq!(rt; one[0], Slot::default());
    let mut many = [JUNK; 65537];
    assert_eq!(rt;
        mirrored(
            &mut many,
            Pair {
                first: 1,
                second: 2,
            },
        ),
        Some(1)
    );
    for slot in &many {
        assert_eq!(rt; *slot, Slot::default());
    }
}

// How many buckets a search for the key looks at.
fn probes<K: Key>(slots: &[Slot<K>], key: &K) -> usize {
    let n = slots.len();
    if n == 0 {
        return 0;
    }
    let home = key.hash() as usize % n;
    for probed in 0..n {
        let i = if probed < n - home {
            home + probed
        } else {
            probed - (n - home)
        };
        let serial = slots[i].serial as usize;
        if serial == 0 || serial > n || slots[serial - 1].key.same_as(key) {
            return probed + 1;
        }
    }
    n
}

fn node(i: u16) -> Node
    requires { i < 2048 }
{
    Node {
        fact: (i / 64) as u8,
        low: i,
        high: i + 1,
    }
}

// How many buckets searches for 2,048 keys look at, once these are in the table.
fn looked_at<K: Key, F: Fn(u16) -> K>(rt: &impl Abort, slots: &mut [Slot<K>], key: F) -> usize
where
    K: Default,
    requires narrow { length slots.old < 65536 }
    requires called { (i : ℕ) → i < 2048 → F.pre key i }
{
    let mut table = Table::new(&mut *slots, K::default());
    for i in 0..2048 {
        assert_eq!(rt; table.insert(key(i)), Some(i as usize));
    }
    let mut total = 0usize;
    for i in 0..2048 {
        total = total.wrapping_add(probes(slots, &key(i)));
    }
    total
}

// Half of 4096 slots are taken. A hash that spread at random would have a search for a key look at 1.5 buckets in the mean.
#[test]
fn nodes_spread(rt: HostRuntime) {
    let total = looked_at(&rt, &mut [Slot::default(); 4096], node);
    assert_eq!(rt; total, 3031, "1.48 buckets to a key");
}

// name0000, name0001 and on.
fn name(i: u16) -> Name {
    let mut bytes = *b"name0000\0\0\0\0\0\0\0\0";
    bytes[4] = b'0' + (i / 1000 % 10) as u8;
    bytes[5] = b'0' + (i / 100 % 10) as u8;
    bytes[6] = b'0' + (i / 10 % 10) as u8;
    bytes[7] = b'0' + (i % 10) as u8;
    Name { len: 8, bytes }
}

// The same with half of 4099 slots, a prime number of them.
#[test]
fn names_spread(rt: HostRuntime) {
    let total = looked_at(&rt, &mut [Slot::default(); 4099], name);
    assert_eq!(rt; total, 3050, "1.49 buckets to a key");
}
