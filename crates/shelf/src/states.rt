// How a shelf's state changes.
ghost use Rattle.std.specs.Prelude.{◌≡◌, ◌<◌, length};
ghost use Rattle.shelf.specs.States.{no_state, opened_state, filed_state, closed_state};

use crate::draft::DraftId;
use crate::state::State;
use arrayvec::ArrayVec;

impl State {
    // No policies and no draft.
    pub(crate) fn new(number: u32) -> State
        ensures { result ≡ no_state number }
    {
        State {
            number,
            given: 0,
            roots: ArrayVec::new(),
            before: None,
        }
    }

    // A draft is given out, with so much held before it.
    pub(crate) fn open(&mut self, held: usize)
        ensures { self.new ≡ opened_state self.old held }
    {
        self.given = self.given.wrapping_add(1);
        self.before = Some(held);
    }

    // One policy more, and no draft.
    pub(crate) fn file(&mut self, root: u16)
        requires { length self.old.roots.items < 64 }
        ensures { self.new ≡ filed_state self.old root }
    {
        self.roots.push(root);
        self.before = None;
    }

    // No draft.
    pub(crate) fn close(&mut self)
        ensures { self.new ≡ closed_state self.old }
    {
        self.before = None;
    }
}
