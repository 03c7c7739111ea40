// A probing table over slots that a caller lends, proved once for every kind of key.
//
// `table` has the table, `keeping` what it does, `guard` a guard that leaves lent slots blank, and `name`, `node` and `pair`
// the kinds of keys.
#![tactic(auto)]

ghost use Rattle.std.specs.Prelude.{◌≡◌, ℕ, Bool, true};

pub mod guard;
mod keeping;
mod mix;
pub mod name;
pub mod node;
pub mod pair;
pub mod table;

// A kind of key: an equality, which may be coarser than that of all the fields, and a hash that is the same for equal keys.
// Nothing else is asked of the hash: a constant one is slow and correct. The equality is a method, and no `Eq`, since a kind may
// have another `==` beside it.
pub trait Key: Copy {
    // What `same_as` and `hash` answer.
    ghost same: { Self → Self → Bool };

    ghost hashed: { Self → ℕ };

    fn same_as(&self, other: &Self) -> bool
        ensures { result ≡ same self.now other.now };

    fn hash(&self) -> u32
        ensures { result ≡ hashed self.now };

    ghost reflexive: { (x : Self) → same x x ≡ true };

    ghost symmetric: { (x y : Self) → same x y ≡ true → same y x ≡ true };

    ghost transitive: { (x y z : Self) → same x y ≡ true → same y z ≡ true → same x z ≡ true };

    ghost even: { (x y : Self) → same x y ≡ true → hashed x ≡ hashed y };
}

// A slot has two fields that stand side by side and do not belong together: the key of slot n is that of number n,
// and the serial of slot h is bucket h, which is free at 0 and else leads to the key whose number is one less. A serial is
// no Option: slots are lent memory of a fixed layout, in which zero means free.
#[derive(Clone, Copy, PartialEq, Eq, Debug, Default)]
pub struct Slot<K> {
    pub key: K,
    pub serial: u16,
}
