// Nodes of a decision diagram as keys.

ghost use Rattle.std.specs.Prelude.{◌+◌, ◌*◌};
ghost use Rattle.probing.specs.Kinds.{node_same, node_hashed};
ghost use Rattle.std.proofs.Common.{rules};

use crate::Key;
use crate::mix::mix;

// A test of one fact: the code that follows where the fact is absent, and the one that follows where it is present.
#[derive(Clone, Copy, PartialEq, Eq, Debug, Default)]
pub struct Node {
    pub fact: u8,
    pub low: u16,
    pub high: u16,
}

impl Key for Node {
    ghost same = { node_same };

    ghost hashed = { node_hashed };

    ghost reflexive = { Prim.search rules };

    ghost symmetric = { Prim.search rules };

    ghost transitive = { Prim.search rules };

    ghost even = { Prim.search rules };

    fn same_as(&self, other: &Node) -> bool {
        self == other
    }

    fn hash(&self) -> u32 {
        mix(self.low as u64 + 65536 * (self.high as u64 + 65536 * self.fact as u64))
    }
}
