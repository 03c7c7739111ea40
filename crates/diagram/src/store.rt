// Nodes in lent slots.
ghost use Rattle.std.specs.Prelude.{◌≤◌};
ghost use Rattle.probing.specs.Model.{keys, room};
ghost use Rattle.diagram.specs.Nodes.{Good};

use probing::node::Node;
use probing::table::Table;

// How many facts there can be: one for each bit of a request.
pub(crate) const FACTS: u8 = 32;

// There is no slot for what was to be built.
#[derive(Clone, Copy, PartialEq, Eq, Debug)]
pub struct Full;

// Decision diagrams that share their nodes: one node a slot, each once, in the order in which they came.
// A code below 16 is a constant, and 16 + i names node i. A node's children are older than the node. A code is no enum, and
// a child no Box: there is no heap, and two codes and a fact have to fit the slot of a node.
#[derive(Drop)]
pub struct Store<'a> {
    pub(crate) unique: Table<'a, Node>,
    // a code of sixteen bits for each slot
    ghost cap: { room unique ≤ 65520 },
    ghost good: { ∥ Good 32 (keys unique) ∥₁ },
}

// What is left of a code where a fact is absent, and where it is present.
#[derive(Clone, Copy)]
pub(crate) struct Sides {
    pub(crate) low: u16,
    pub(crate) high: u16,
}

// The first fact that one of two codes tests, and what is left of each.
#[derive(Clone, Copy)]
pub(crate) struct Split {
    pub(crate) fact: u8,
    pub(crate) first: Sides,
    pub(crate) second: Sides,
}
