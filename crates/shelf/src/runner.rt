// A list of calls, run on a shelf.
ghost use Rattle.std.specs.Prelude.{◌≡◌, min, length, take, drop, Ok, Err};
ghost use Rattle.effects.specs.Codes.{Codes, QuestionCodes, codes, question_codes};
ghost use Rattle.probing.specs.Kinds.{no_pair};
ghost use Rattle.probing.specs.Table.{wiped};
ghost use Rattle.shelf.specs.Catalogue.{Catalogue};
ghost use Rattle.shelf.specs.Stands.{Stands, Lent, Moved, numbering};
ghost use Rattle.shelf.specs.Law.{Answered, after, Runs, Lawful};
ghost use Rattle.shelf.specs.declared.exchange.Answer.TheVariants.{Refused};

use crate::draft::Draft;
use crate::exchange::{Answer, Call};
use crate::shelf::Shelf;
use effects::EffectAlgebra;
use probing::Slot;
use probing::name::Name;
use probing::node::Node;
use probing::pair::Pair;
use probing::table::wipe;
use tape::Refusal;

// The answer to a call that came to a value, or was refused.
fn told<T, F: FnOnce(T) -> Answer>(came: Result<T, Refusal>, answer: F) -> Answer
    requires { F.IsAlwaysCallable answer }
    ensures ok { (x : _) → came ≡ Ok x → F.post answer x result }
    ensures err { (e : _) → came ≡ Err e → result ≡ Refused e }
{
    match came {
        Ok(x) => answer(x),
        Err(refusal) => Answer::Refused(refusal),
    }
}

// The same where a refusal hands the draft back. The runner takes the draft apart, and makes it again where a call names it.
fn told_back<T, F: FnOnce(T) -> Answer>(came: Result<T, (Refusal, Draft)>, answer: F) -> Answer
    requires { F.IsAlwaysCallable answer }
    ensures ok { (x : _) → came ≡ Ok x → F.post answer x result }
    ensures err { (e : _) → came ≡ Err e → result ≡ Refused e.0 }
{
    match came {
        Ok(x) => answer(x),
        Err((refusal, draft)) => {
            let Draft { id: _ } = draft;
            Answer::Refused(refusal)
        }
    }
}

// One call of a list.
fn turn(shelf: &mut Shelf, call: Call, scratch: &mut [Slot<Pair>]) -> Answer
    ensures lent { Lent shelf.old shelf.new }
    ensures moves { (K : Codes) (Q : QuestionCodes) (c : Catalogue) → Stands K Q shelf.old c → Answered K Q (numbering shelf.old) c call.entry result × Moved K Q shelf.old shelf.new c (after K c call.entry) }
{
    match call {
        Call::Declare(name) => told(shelf.declare(&name), Answer::Fact),
        Call::Find(name) => shelf.find(&name).map_or(Answer::Unknown, Answer::Fact),
        Call::Open => told(shelf.open(), |draft| {
            let Draft { id } = draft;
            Answer::Opened(id)
        }),
        Call::Feed(id, bytes) => told_back(shelf.feed(Draft { id }, bytes), |(taken, draft)| {
            let Draft { id: _ } = draft;
            Answer::Took(taken)
        }),
        Call::File(id) => told_back(shelf.file(Draft { id }), Answer::Filed),
        Call::Abandon(id) => told_back(shelf.abandon(Draft { id }), |()| Answer::Abandoned),
        Call::Load(tape) => match shelf.load(tape) {
            Ok((policy, held)) => Answer::Loaded(policy, held),
            Err(refused) => Answer::RefusedThere(refused),
        },
        Call::Ask(policy, request) => told(shelf.ask(policy, request), Answer::Code),
        Call::Shape(policy) => told(shelf.shape(policy), Answer::Shaped),
        Call::Compare(first, second, question) => {
            let came = shelf.compare(first, second, question, scratch);
            told(came, |found| found.map_or(Answer::Kept, Answer::Witness))
        }
        Call::Held => Answer::Holding(shelf.held()),
    }
}

// Runs calls on a shelf of the algebra A, as many as the log has room for, and logs their answers. The law over runs is
// its contract: whatever catalogue the shelf stands at, each call is answered as the catalogue of that moment says, and at
// every moment what the calls would answer of all filed policies is so too. The scratch is left blank.
pub fn run_on<A: EffectAlgebra>(
    shelf: &mut Shelf,
    calls: &[Call],
    scratch: &mut [Slot<Pair>],
    log: &mut [Answer],
) -> usize
    ensures many { result ≡ min (length calls.now) (length log.old) }
    ensures law { (c : Catalogue) → Stands (codes A.EffectAlgebra.effects) (question_codes A.EffectAlgebra.effects A.EffectAlgebra.questions) shelf.old c → ((d : Catalogue) × Runs A.EffectAlgebra.effects A.EffectAlgebra.questions shelf.old c (take result calls.now) (take result log.new) shelf.new d) }
    ensures beyond { drop result log.new ≡ drop result log.old }
    ensures blank { scratch.new ≡ wiped no_pair scratch.old }
{
    let n = calls.len().min(log.len());
    // By index: of a log that an iterator lends, a loop's invariant cannot say what was written (tried with `zip`).
    for i in 0..n {
        log[i] = turn(shelf, calls[i], scratch);
    }
    wipe(scratch, Pair::default());
    n
}

// Makes a shelf of the algebra A and runs calls on it, as many as the log has room for. The law over runs, from a making,
// is its contract.
pub fn run<A: EffectAlgebra>(
    number: u32,
    nodes: &mut [Slot<Node>],
    names: &mut [Slot<Name>],
    calls: &[Call],
    scratch: &mut [Slot<Pair>],
    log: &mut [Answer],
) -> usize
    ensures many { result ≡ min (length calls.now) (length log.old) }
    ensures law { Lawful A.EffectAlgebra.effects A.EffectAlgebra.questions number (length nodes.old) (length names.old) (take result calls.now) (take result log.new) }
    ensures beyond { drop result log.new ≡ drop result log.old }
    ensures blank { scratch.new ≡ wiped no_pair scratch.old }
{
    let mut shelf = Shelf::make::<A>(number, nodes, names);
    run_on::<A>(&mut shelf, calls, scratch, log)
}
