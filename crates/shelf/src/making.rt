// Making a shelf.
ghost use Rattle.std.specs.Prelude.{min, length};
ghost use Rattle.effects.specs.Codes.{codes, question_codes};
ghost use Rattle.shelf.specs.Catalogue.{at_making};
ghost use Rattle.shelf.specs.Stands.{Stands, cleared_nodes, cleared_names};

use crate::shelf::Shelf;
use crate::state::State;
use diagram::Store;
use effects::{EffectAlgebra, effect_tables, question_tables};
use probing::Slot;
use probing::name::Name;
use probing::node::Node;
use probing::table::Table;
use tape::Stack;

// The most slots that a shelf uses: 16 codes of sixteen bits are constants.
const MOST_SLOTS: usize = 65520;

// The most facts, one for each bit of a request.
const MOST_FACTS: usize = 32;

impl<'a> Shelf<'a> {
    // An empty shelf of the algebra A. It clears the slots that it will use, at most 65,520 and 32, and no others.
    pub fn make<A: EffectAlgebra>(
        number: u32,
        nodes: &'a mut [Slot<Node>],
        names: &'a mut [Slot<Name>],
    ) -> Shelf<'a>
        ensures stands { Stands (codes A.EffectAlgebra.effects) (question_codes A.EffectAlgebra.effects A.EffectAlgebra.questions) result (at_making number (length nodes.old) (length names.old)) }
        ensures nodes { cleared_nodes result (min (length nodes.old) 65520) }
        ensures names { cleared_names result (min (length names.old) 32) }
    {
        let slots = nodes.len().min(MOST_SLOTS);
        let facts = names.len().min(MOST_FACTS);
        Shelf {
            names: Table::new(&mut names[0..facts], Name::default()),
            store: Store::new(&mut nodes[0..slots]),
            tables: effect_tables::<A>(),
            questions: question_tables::<A>(),
            stack: Stack::empty(0u16),
            state: State::new(number),
        }
    }
}
