// What codes mean.
ghost use Rattle.std.specs.Prelude.{◌≡◌, ℕ, ◌+◌, ◌<◌, ◌≤◌, ◌⊎◌, List, [], length, Decides};
ghost use Rattle.probing.specs.Table.{wiped};
ghost use Rattle.diagram.specs.Cofactors.{count as cofactor_count};
ghost use Rattle.diagram.specs.Counted.{Same, Ignores, Each};
ghost use Rattle.diagram.specs.Tree.{Neat};
ghost use Rattle.diagram.specs.Nodes.{meant, no_node, node_of};
ghost use Rattle.diagram.specs.Building.{Top, Sided, Parted};
ghost use Rattle.diagram.specs.Stores.{nodes, held as held_by, slots as slots_of, meaning, Recorded, Means, Back};

use crate::store::{FACTS, Sides, Split, Store};
use probing::Slot;
use probing::node::Node;
use probing::table::Table;

impl<'a> Store<'a> {
    // An empty store: every slot is wiped.
    pub fn new(slots: &'a mut [Slot<Node>]) -> Store<'a>
        requires { length slots.old ≤ 65520 }
        ensures bare { held_by result ≡ 0 }
        ensures width { slots_of result ≡ length slots.old }
        ensures recorded { Recorded result 0 [] }
        ensures blank { result.unique.slots.now ≡ wiped no_node slots.old }
    {
        Store {
            unique: Table::new(slots, Node::default()),
        }
    }
}

// That a code is one of the store's is asked by each function here: no type of a bare number can say it.
impl Store<'_> {
    // The node that a code names, if it names one.
    fn node(&self, code: u16) -> Option<Node>
        ensures { result ≡ node_of (nodes self.now) code }
    {
        let number = (code as usize).checked_sub(16)?;
        self.unique.key(number)
    }

    // The fact that a code tests first, or 32 where it is a constant, so that the lower of two is the next to test: as an Option,
    // none would be the lowest.
    fn first_fact(&self, code: u16) -> u8
        requires below { code < 16 + held_by self.now }
        ensures { Top 32 (meant (nodes self.now) code) result }
    {
        match self.node(code) {
            Some(node) => node.fact,
            None => FACTS,
        }
    }

    // What is left of a code, which tests no fact before this one, where the fact is absent and where it is present.
    fn sides(&self, code: u16, fact: u8) -> Sides
        requires below { code < 16 + held_by self.now }
        ensures { Sided (nodes self.now) fact code result }
    {
        match self.node(code) {
            Some(node) if node.fact == fact => Sides {
                low: node.low,
                high: node.high,
            },
            _ => Sides {
                low: code,
                high: code,
            },
        }
    }

    // Where two codes, not both constants, part.
    pub(crate) fn split(&self, first: u16, second: u16) -> Split
        requires first_below { first < 16 + held_by self.now }
        requires second_below { second < 16 + held_by self.now }
        requires tests { ((first < 16) × (16 ≤ second)) ⊎ (16 ≤ first) }
        ensures { (k : ℕ) → k ≤ 32 → Neat 32 k (meant (nodes self.now) first) → Neat 32 k (meant (nodes self.now) second) → Parted 32 k (nodes self.now) first second result }
    {
        let fact = self.first_fact(first).min(self.first_fact(second));
        Split {
            fact,
            first: self.sides(first, fact),
            second: self.sides(second, fact),
        }
    }

    // How many nodes there are: the number of distinct cofactors that are not constant of everything recorded,
    // over any number of facts that all of it keeps to.
    pub fn held(&self) -> usize
        ensures number { result ≡ held_by self.now }
        ensures within { result ≤ slots_of self.now }
        ensures counts { (n : ℕ) (Fs : List (ℕ → ℕ)) → n ≤ 32 → Each (Ignores n) Fs → Recorded self.now result Fs → result ≡ cofactor_count n Fs }
    {
        self.unique.count()
    }

    // The code of a constant.
    pub fn constant(&self, code: u8) -> u16
        requires { code < 16 }
        ensures number { result ≡ code }
        ensures means { Means self.now result (λ _. code) }
    {
        code as u16
    }

    // Gives up the nodes from number `to` on.
    pub fn roll_back(&mut self, to: usize)
        ensures { Back self.old to self.new }
    {
        self.unique.roll_back(to);
    }

    // The code itself, or 0 where it names no node: the two mean the same.
    pub(crate) fn known(&self, code: u16) -> u16
        ensures within { result < 16 + held_by self.now }
        ensures means { meant (nodes self.now) result ≡ meant (nodes self.now) code }
        ensures itself { code < 16 + held_by self.now → result ≡ code }
    {
        if (code as usize) < 16 + self.unique.count() {
            code
        } else {
            0
        }
    }

    // What a code means at a request.
    pub fn evaluate(&self, code: u16, request: u32) -> u8
        ensures { result ≡ meaning self.now code request }
    {
        let mut here = self.known(code);
        while let Some(node) = self.node(here) {
            here = if (request >> node.fact) % 2 == 1 {
                node.high
            } else {
                node.low
            };
        }
        here as u8
    }

    // Whether two codes mean the same function: they do where they are the same code, and nowhere else.
    pub fn same_function(&self, first: u16, second: u16) -> bool
        ensures same { Decides result (Same 32 (meaning self.now first) (meaning self.now second)) }
        ensures facts { (n : ℕ) (F G : ℕ → ℕ) → n ≤ 32 → Ignores n F → Ignores n G → Same 32 (meaning self.now first) F → Same 32 (meaning self.now second) G → Decides result (Same n F G) }
        ensures codes { first < 16 + held_by self.now → second < 16 + held_by self.now → Decides result (first ≡ second) }
    {
        self.known(first) == self.known(second)
    }
}
