// Drafts: open, feed, file and abandon.
ghost use Rattle.std.specs.Prelude.{◌≡◌, ◌≤◌, length, Some, is_some, IfSome};
ghost use Rattle.effects.specs.Codes.{Codes, QuestionCodes};
ghost use Rattle.probing.specs.Model.{keys};
ghost use Rattle.tape.specs.Tape.{first_of};
ghost use Rattle.shelf.specs.Catalogue.{Catalogue, own_open};
ghost use Rattle.shelf.specs.Calls.{opening_tests, open_answer, feed_answer, file_answer, abandon_answer, after_open, after_feed, after_file, after_abandon};
ghost use Rattle.shelf.specs.Drafts.{given_out, handed_on, handed_back};
ghost use Rattle.shelf.specs.Stands.{Stands, Lent, Moved};

use crate::draft::{Draft, DraftId};
use crate::shelf::Shelf;
use tape::{Refusal, Rules, Stack};

impl Shelf<'_> {
    // Why no draft may be opened, if none may.
    pub(crate) fn refuse_opening(&self) -> Result<(), Refusal>
        ensures { (K : Codes) (Q : QuestionCodes) (c : Catalogue) → Stands K Q self.now c → result ≡ first_of (opening_tests c) (tt {0}) }
    {
        if self.state.before.is_some() {
            return Err(Refusal::DraftOpen);
        }
        if self.state.roots.is_full() {
            return Err(Refusal::AllFiled);
        }
        Ok(())
    }

    // What was held when a draft was opened, if it is the open one.
    fn held_before(&self, draft: &Draft) -> Option<usize>
        ensures own { (K : Codes) (Q : QuestionCodes) (c : Catalogue) → Stands K Q self.now c → is_some result ≡ own_open c draft.now.id }
        ensures before { IfSome result (λ before. self.now.state.before ≡ Some before) }
    {
        let newest = DraftId {
            shelf: self.state.number,
            count: self.state.given.wrapping_sub(1),
        };
        if draft.id == newest {
            self.state.before
        } else {
            None
        }
    }

    // How many facts are declared.
    pub(crate) fn facts(&self) -> u8
        ensures few { result ≤ 32 }
        ensures number { result ≡ length (keys self.now.names) }
    {
        self.names.count() as u8
    }

    // Opens a draft.
    pub fn open(&mut self) -> Result<Draft, Refusal>
        ensures lent { Lent self.old self.new }
        ensures moves { (K : Codes) (Q : QuestionCodes) (c : Catalogue) → Stands K Q self.old c → (result ≡ given_out (open_answer c)) × Moved K Q self.old self.new c (after_open c) }
    {
        self.refuse_opening()?;
        let id = DraftId {
            shelf: self.state.number,
            count: self.state.given,
        };
        let held = self.store.held();
        self.stack = Stack::empty(0u16);
        self.state.open(held);
        Ok(Draft { id })
    }

    // Reads one command from the start of the bytes into the draft: how many bytes it takes.
    pub fn feed(&mut self, draft: Draft, bytes: &[u8]) -> Result<(usize, Draft), (Refusal, Draft)>
        ensures lent { Lent self.old self.new }
        ensures moves { (K : Codes) (Q : QuestionCodes) (c : Catalogue) → Stands K Q self.old c → (result ≡ handed_on draft (feed_answer K c draft.id bytes.now)) × Moved K Q self.old self.new c (after_feed K c draft.id bytes.now) }
    {
        if self.held_before(&draft).is_none() {
            return Err((Refusal::NotOpenDraft, draft));
        }
        let facts = self.facts();
        let rules = Rules {
            tables: &self.tables,
            facts,
        };
        match rules.step(&mut self.store, &mut self.stack, bytes) {
            Ok(count) => Ok((count, draft)),
            Err(refusal) => Err((refusal, draft)),
        }
    }

    // Files the draft as the next policy.
    pub fn file(&mut self, draft: Draft) -> Result<u8, (Refusal, Draft)>
        ensures lent { Lent self.old self.new }
        ensures moves { (K : Codes) (Q : QuestionCodes) (c : Catalogue) → Stands K Q self.old c → (result ≡ handed_back draft (file_answer c draft.id)) × Moved K Q self.old self.new c (after_file c draft.id) }
    {
        if self.held_before(&draft).is_none() {
            return Err((Refusal::NotOpenDraft, draft));
        }
        if !self.stack.outline.ended {
            return Err((Refusal::NotEnded, draft));
        }
        let Draft { id: _ } = draft;
        let policy = self.state.roots.len();
        self.state.file(self.stack.top(0));
        Ok(policy as u8)
    }

    // Drops the draft, with all that was read into it.
    pub fn abandon(&mut self, draft: Draft) -> Result<(), (Refusal, Draft)>
        ensures lent { Lent self.old self.new }
        ensures moves { (K : Codes) (Q : QuestionCodes) (c : Catalogue) → Stands K Q self.old c → (result ≡ handed_back draft (abandon_answer c draft.id)) × Moved K Q self.old self.new c (after_abandon c draft.id) }
    {
        let Some(before) = self.held_before(&draft) else {
            return Err((Refusal::NotOpenDraft, draft));
        };
        let Draft { id: _ } = draft;
        self.store.roll_back(before);
        self.state.close();
        Ok(())
    }
}
