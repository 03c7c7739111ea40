// What is asked of filed policies: ask, shape and compare; and held.
ghost use Rattle.std.specs.Prelude.{◌≡◌};
ghost use Rattle.effects.specs.Codes.{Codes, QuestionCodes};
ghost use Rattle.probing.specs.Kinds.{no_pair};
ghost use Rattle.probing.specs.Table.{wiped};
ghost use Rattle.shelf.specs.Catalogue.{Catalogue, held as held_at};
ghost use Rattle.shelf.specs.Calls.{ask_answer, shape_answer, Compares};
ghost use Rattle.shelf.specs.Stands.{Stands, numbering, asking, shaping, holding, Comparing};

use crate::shelf::Shelf;
use probing::Slot;
use probing::guard::Guard;
use probing::pair::Pair;
use tape::{Refusal, beyond};

impl Shelf<'_> {
    // The code of a policy's diagram.
    fn root(&self, policy: u8) -> Result<u16, Refusal>
        ensures { result ≡ shaping self.now policy }
    {
        let roots = self.state.roots.as_slice();
        roots.get(policy as usize).copied().ok_or(Refusal::NoPolicy)
    }

    // The code of a policy's effect at a request.
    pub fn ask(&self, policy: u8, request: u32) -> Result<u8, Refusal>
        ensures says { result ≡ asking self.now policy request }
        ensures stands { (K : Codes) (Q : QuestionCodes) (c : Catalogue) → Stands K Q self.now c → result ≡ ask_answer K c policy request }
    {
        let root = self.root(policy)?;
        if beyond(self.facts(), request) {
            return Err(Refusal::UndeclaredInRequest);
        }
        Ok(self.store.evaluate(root, request))
    }

    // The number of a policy's shape: the same for two policies exactly when they have the same effect everywhere.
    pub fn shape(&self, policy: u8) -> Result<u16, Refusal>
        ensures says { result ≡ shaping self.now policy }
        ensures stands { (K : Codes) (Q : QuestionCodes) (c : Catalogue) → Stands K Q self.now c → result ≡ shape_answer (numbering self.now) c policy }
    {
        self.root(policy)
    }

    // The first request at which two policies break a question, or none where none does. The scratch is left blank.
    pub fn compare(
        &self,
        first: u8,
        second: u8,
        question: u8,
        scratch: &mut [Slot<Pair>],
    ) -> Result<Option<u32>, Refusal>
        ensures says { Comparing self.now first second question result }
        ensures stands { (K : Codes) (Q : QuestionCodes) (c : Catalogue) → Stands K Q self.now c → Compares K Q c first second question result }
        ensures blank { scratch.new ≡ wiped no_pair scratch.old }
    {
        let guard = Guard {
            slots: scratch,
            blank: Pair::default(),
        };
        let one = self.root(first)?;
        let other = self.root(second)?;
        if question >= self.questions.count {
            return Err(Refusal::NoQuestion);
        }
        Ok(
            self.store.witness(
                &self.questions.breaks[question as usize],
                one,
                other,
                guard.slots,
            ),
        )
    }

    // How many distinct cofactors that are not constant the results of all commands of the filed policies and the open draft have.
    pub fn held(&self) -> usize
        ensures says { result ≡ holding self.now }
        ensures stands { (K : Codes) (Q : QuestionCodes) (c : Catalogue) → Stands K Q self.now c → result ≡ held_at K c }
    {
        self.store.held()
    }
}
