// Pairs of codes as keys.

ghost use Rattle.std.specs.Prelude.{◌+◌, ◌*◌};
ghost use Rattle.probing.specs.Kinds.{pair_same, pair_hashed};
ghost use Rattle.std.proofs.Common.{rules};

use crate::Key;
use crate::mix::mix;

// Two codes, in order.
#[derive(Clone, Copy, PartialEq, Eq, Debug, Default)]
pub struct Pair {
    pub first: u16,
    pub second: u16,
}

impl Key for Pair {
    ghost same = { pair_same };

    ghost hashed = { pair_hashed };

    ghost reflexive = { Prim.search rules };

    ghost symmetric = { Prim.search rules };

    ghost transitive = { Prim.search rules };

    ghost even = { Prim.search rules };

    fn same_as(&self, other: &Pair) -> bool {
        self == other
    }

    fn hash(&self) -> u32 {
        mix(self.first as u64 + 65536 * self.second as u64)
    }
}
