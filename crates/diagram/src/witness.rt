// The first request at which two diagrams break a question.
ghost use Rattle.std.specs.Prelude.{◌≡◌, ℕ, ◌+◌, ◌<◌, ◌≤◌};
ghost use Rattle.probing.specs.Model.{keys};
ghost use Rattle.probing.specs.Kinds.{no_pair};
ghost use Rattle.probing.specs.Table.{wiped};
ghost use Rattle.diagram.specs.Counted.{Same, Ignores};
ghost use Rattle.diagram.specs.Requests.{Witness};
ghost use Rattle.diagram.specs.Tree.{says, Neat};
ghost use Rattle.diagram.specs.Nodes.{meant};
ghost use Rattle.diagram.specs.Questions.{asks, Breaks, WitnessFrom, Searched};
ghost use Rattle.diagram.specs.Stores.{nodes, held, meaning};

use crate::store::Store;
use probing::Slot;
use probing::guard::Guard;
use probing::pair::Pair;
use probing::table::Table;

// The most slots of a scratch that are used: a serial of sixteen bits leads to no more.
const MOST_PAIRS: usize = 65535;

// Whether a question's table says that a pair of codes breaks it.
fn breaks(question: &[bool; 256], first: u16, second: u16) -> bool
    requires first { first < 16 }
    requires second { second < 16 }
    ensures { result ≡ asks question.now first second }
{
    question[first as usize * 16 + second as usize]
}

// Here, too, that a code is one of the store's is asked by each function: no type of a bare number can say it.
impl Store<'_> {
    // The first breaking request among those that lack every fact before `from`, for codes that test none of these;
    // or none where no request breaks. Pairs that were searched without a break are remembered and not searched again.
    fn search(
        &self,
        question: &[bool; 256],
        first: u16,
        second: u16,
        from: u8,
        seen: &mut Table<Pair>,
    ) -> Option<u32>
        requires first_below { first < 16 + held self.now }
        requires second_below { second < 16 + held self.now }
        requires from_below { from ≤ 32 }
        requires first_later { Neat 32 from (meant (nodes self.now) first) }
        requires second_later { Neat 32 from (meant (nodes self.now) second) }
        requires searched { Searched 32 question.now (nodes self.now) (keys seen.old) }
        ensures searched { Searched 32 question.now (nodes self.now) (keys seen.new) }
        ensures finds { WitnessFrom 32 from (Breaks question.now (says (meant (nodes self.now) first)) (says (meant (nodes self.now) second))) result }
    {
        if first < 16 && second < 16 {
            return breaks(question, first, second).then_some(0);
        }
        let pair = Pair { first, second };
        if seen.find(&pair).is_some() {
            return None;
        }
        let sides = self.split(first, second);
        if let Some(request) = self.search(
            question,
            sides.first.low,
            sides.second.low,
            sides.fact + 1,
            seen,
        ) {
            return Some(request);
        }
        if let Some(rest) = self.search(
            question,
            sides.first.high,
            sides.second.high,
            sides.fact + 1,
            seen,
        ) {
            return Some(rest + (1 << sides.fact));
        }
        let _ = seen.insert(pair);
        None
    }

    // The first request in the request order at which the meanings of two codes break the question, or none where
    // none does. What the scratch holds and how long it is changes the time alone; it is left blank.
    pub fn witness(
        &self,
        question: &[bool; 256],
        first: u16,
        second: u16,
        scratch: &mut [Slot<Pair>],
    ) -> Option<u32>
        ensures first { Witness 32 (Breaks question.now (meaning self.now first) (meaning self.now second)) result }
        ensures facts { (n : ℕ) (F G : ℕ → ℕ) → n ≤ 32 → Ignores n F → Ignores n G → Same 32 (meaning self.now first) F → Same 32 (meaning self.now second) G → Witness n (Breaks question.now F G) result }
        ensures blank { scratch.new ≡ wiped no_pair scratch.old }
    {
        let guard = Guard {
            slots: scratch,
            blank: Pair::default(),
        };
        let used = guard.slots.len().min(MOST_PAIRS);
        let mut seen = Table::new(&mut guard.slots[0..used], Pair::default());
        let a = self.known(first);
        let b = self.known(second);
        self.search(question, a, b, 0, &mut seen)
    }
}
