// What a shelf keeps.
ghost use Rattle.effects.specs.Codes.{Codes, QuestionCodes};
ghost use Rattle.shelf.specs.Catalogue.{Catalogue};
ghost use Rattle.shelf.specs.Upholds.{Upholds};

use crate::state::State;
use diagram::Store;
use effects::{EffectTables, QuestionTables};
use probing::name::Name;
use probing::table::Table;
use tape::Stack;

// The names of the facts, the diagrams of the policies in the slots that are lent, the algebra as tables, and the open
// draft's stack.
#[derive(Drop)]
pub struct Shelf<'a> {
    pub(crate) names: Table<'a, Name>,
    pub(crate) store: Store<'a>,
    pub(crate) tables: EffectTables,
    pub(crate) questions: QuestionTables,
    pub(crate) stack: Stack<u16>,
    pub(crate) state: State,
    // it stands at some catalogue of some algebra; which one is each call's premise, since nobody stores the catalogue
    ghost stands: { ∥ ((K : Codes) × ((Q : QuestionCodes) × ((c : Catalogue) × Upholds K Q names store tables questions stack state c))) ∥₁ },
}
