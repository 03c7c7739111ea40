// Loading a whole tape.
ghost use Rattle.std.specs.Prelude.{◌≡◌};
ghost use Rattle.effects.specs.Codes.{Codes, QuestionCodes};
ghost use Rattle.shelf.specs.Catalogue.{Catalogue};
ghost use Rattle.shelf.specs.Calls.{load_answer, after_load};
ghost use Rattle.shelf.specs.Stands.{Stands, Lent, Moved};

use crate::shelf::Shelf;
use tape::{LONGEST_TAPE, Refusal, RefusedAt, Rules, Stack};

impl Shelf<'_> {
    // Files a tape's policy: its number, together with what is held then. A refusal undoes all.
    pub fn load(&mut self, tape: &[u8]) -> Result<(u8, usize), RefusedAt>
        ensures lent { Lent self.old self.new }
        ensures moves { (K : Codes) (Q : QuestionCodes) (c : Catalogue) → Stands K Q self.old c → (result ≡ load_answer K c tape.now) × Moved K Q self.old self.new c (after_load K c tape.now) }
    {
        if tape.len() > LONGEST_TAPE {
            return Err(Refusal::TapeTooLong.at(0));
        }
        if let Err(refusal) = self.refuse_opening() {
            return Err(refusal.at(0));
        }
        let facts = self.facts();
        let before = self.store.held();
        let mut stack = Stack::empty(0u16);
        let rules = Rules {
            tables: &self.tables,
            facts,
        };
        if let Err(refused) = rules.read_all(&mut self.store, &mut stack, tape) {
            self.store.roll_back(before);
            return Err(refused);
        }
        let policy = self.state.roots.len();
        self.state.file(stack.top(0));
        Ok((policy as u8, self.store.held()))
    }
}
