// What the tests share: slots with left-overs in them, the worked tapes, and answers that can be compared.
use effects::EffectAlgebra;
use probing::Slot;
use probing::name::Name;
use probing::node::Node;
use probing::pair::Pair;
use shelf::{Answer, Call, DraftId, Shelf, run_on};
use std::process::Abort;
use std::test::Fail;

pub const OLD_NODE: Slot<Node> = Slot {
    key: Node {
        fact: 7,
        low: 7,
        high: 9,
    },
    serial: 9,
};

pub const OLD_NAME: Slot<Name> = Slot {
    key: Name {
        len: 7,
        bytes: [0x61; 16],
    },
    serial: 5,
};

pub const OLD_PAIR: Slot<Pair> = Slot {
    key: Pair {
        first: 16,
        second: 1,
    },
    serial: 1,
};

pub const STUDENT: Name = Name {
    len: 7,
    bytes: *b"student\0\0\0\0\0\0\0\0\0",
};

pub const FACULTY: Name = Name {
    len: 7,
    bytes: *b"faculty\0\0\0\0\0\0\0\0\0",
};

pub const ASSIGN: Name = Name {
    len: 6,
    bytes: *b"assign\0\0\0\0\0\0\0\0\0\0",
};

// The worked tapes, over student, faculty and assign.
pub const TAPE_A: [u8; 6] = *b"\x10\x01\x01\x01\x11\x1F";

pub const TAPE_B: [u8; 13] = *b"\x10\x01\x01\x01\x11\x10\x02\x01\x00\x11\x13\x00\x1F";

pub const TAPE_C: [u8; 13] = *b"\x10\x02\x01\x00\x11\x10\x01\x01\x01\x11\x13\x02\x1F";

pub const TAPE_D: [u8; 13] = *b"\x10\x01\x01\x01\x11\x10\x02\x01\x00\x11\x13\x03\x1F";

pub const TAPE_E: [u8; 9] = *b"\x10\x01\x01\x01\x11\x01\x02\x12\x1F";

// The shortest tape.
pub const PERMIT: [u8; 3] = *b"\x10\x01\x1F";

// An answer, with a refusal by its number.
#[derive(Clone, Copy, PartialEq, Eq, Debug)]
pub enum Said {
    Fact(u8),
    Unknown,
    Opened(DraftId),
    Took(usize),
    Filed(u8),
    Abandoned,
    Loaded(u8, usize),
    Code(u8),
    Shaped(u16),
    Kept,
    Witness(u32),
    Holding(usize),
    Refused(u8),
    RefusedAt(u8, usize),
}

// By numbers: they are what is promised to a client, and a test that named the refusals would not hold a number.
impl From<Answer> for Said {
    fn from(answer: Answer) -> Said {
        match answer {
            Answer::Fact(fact) => Said::Fact(fact),
            Answer::Unknown => Said::Unknown,
            Answer::Opened(id) => Said::Opened(id),
            Answer::Took(taken) => Said::Took(taken),
            Answer::Filed(policy) => Said::Filed(policy),
            Answer::Abandoned => Said::Abandoned,
            Answer::Loaded(policy, held) => Said::Loaded(policy, held),
            Answer::Code(code) => Said::Code(code),
            Answer::Shaped(number) => Said::Shaped(number),
            Answer::Kept => Said::Kept,
            Answer::Witness(request) => Said::Witness(request),
            Answer::Holding(held) => Said::Holding(held),
            Answer::Refused(refusal) => Said::Refused(refusal.number()),
            Answer::RefusedThere(at) => Said::RefusedAt(at.refusal.number(), at.place),
        }
    }
}

// A draft by its two numbers.
pub fn draft(shelf: u32, count: u32) -> DraftId {
    DraftId { shelf, count }
}

// What a shelf of the algebra A answers to a call.
fn told<A: EffectAlgebra>(shelf: &mut Shelf, call: Call) -> Said {
    let mut log = [Answer::Unknown];
    run_on::<A>(shelf, &[call], &mut [OLD_PAIR; 2], &mut log);
    Said::from(log[0])
}

// Makes the calls of a script one by one, and wants their answers.
pub fn follows<A: EffectAlgebra>(rt: &impl Abort, shelf: &mut Shelf, script: &[(Call, Said)]) {
    for (n, (call, wanted)) in script.iter().enumerate() {
        assert_eq!(rt; told::<A>(shelf, *call), *wanted, "call {n} of the script");
    }
}

// Declares student, faculty and assign.
pub fn declare_three(rt: &impl Abort, shelf: &mut Shelf) {
    assert!(rt; shelf.declare(&STUDENT).is_ok());
    assert!(rt; shelf.declare(&FACULTY).is_ok());
    assert!(rt; shelf.declare(&ASSIGN).is_ok());
}

pub fn are_blank(scratch: &[Slot<Pair>]) -> bool {
    scratch.iter().all(|slot| *slot == Slot::default())
}

// A name of two letters, another one for each number.
pub fn numbered(n: u8) -> Name {
    let mut bytes = [0; 16];
    bytes[0] = b'a' + n / 16;
    bytes[1] = b'a' + n % 16;
    Name { len: 2, bytes }
}

// Wants a tape filed as the policy, with so much held then.
pub fn loads(rt: &impl Abort, shelf: &mut Shelf, tape: &[u8], policy: u8, held: usize) {
    assert_eq!(rt; shelf.load(tape), Ok((policy, held)));
}

// Wants a tape refused there, with as much held after as before.
pub fn refuses_tape(rt: &impl Abort, shelf: &mut Shelf, tape: &[u8], number: u8, place: usize) {
    let before = shelf.held();
    let came = shelf
        .load(tape)
        .map_err(|at| (at.refusal.number(), at.place));
    assert_eq!(rt; came, Err((number, place)));
    assert_eq!(rt; shelf.held(), before);
}

// Wants the code of a policy's effect at a request, or a refusal.
pub fn asked(rt: &impl Abort, shelf: &Shelf, policy: u8, request: u32, wanted: Result<u8, u8>) {
    let came = shelf
        .ask(policy, request)
        .map_err(|refusal| refusal.number());
    assert_eq!(rt; came, wanted);
}

// Wants the answer of a comparison, and the scratch blank after it.
pub fn compares(
    rt: &impl Abort,
    shelf: &Shelf,
    first: u8,
    second: u8,
    question: u8,
    scratch: &mut [Slot<Pair>],
    wanted: Result<Option<u32>, u8>,
) {
    let came = shelf
        .compare(first, second, question, scratch)
        .map_err(|refusal| refusal.number());
    assert_eq!(rt; came, wanted);
    assert!(rt; are_blank(scratch), "the scratch is not blank");
}
