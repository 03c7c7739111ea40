// What accepted tapes answer.
use crate::reading::told;
use effects::{EffectAlgebra, FourEffect, SixEffect};
use std::alloc::Global;
use std::process::Abort;
use std::test::Fail;

// Four effects over three facts: 1 where the condition is true, 0 elsewhere.
fn holds(
    rt: &impl Abort,
    heap: Global,
    condition: &[u8],
    request: u32,
    value: u8,
) -> Result<(), Fail> {
    let tape = [&[0x10, 0x01], condition, &[0x11, 0x1F]].concat(heap)?;
    assert_eq!(rt; told::<FourEffect>(3, &tape, request), Ok(value));
    Ok(())
}

#[test]
fn conditions(rt: HostRuntime) -> Result<(), Fail> {
    let heap = rt.alloc();
    for request in 0..8u32 {
        let student = (request % 2) as u8;
        let faculty = (request / 2 % 2) as u8;
        let both = student.min(faculty);
        let either = student.max(faculty);
        holds(&rt, heap, &[0x01, 0], request, student)?;
        holds(&rt, heap, &[0x01, 0, 0x04], request, 1 - student)?;
        holds(&rt, heap, &[0x01, 0, 0x01, 1, 0x05], request, both)?;
        holds(&rt, heap, &[0x01, 0, 0x01, 1, 0x06], request, either)?;
        holds(&rt, heap, &[0x02, 3, 0, 0, 0], request, either)?;
        holds(&rt, heap, &[0x03, 3, 0, 0, 0], request, both)?;
        holds(&rt, heap, &[0x02, 0, 0, 0, 0], request, 0)?;
        holds(&rt, heap, &[0x03, 0, 0, 0, 0], request, 1)?;
    }
    Ok(())
}

// The lower entry is first.
#[test]
fn join_order(rt: HostRuntime) {
    let permit_first = [0x10, 1, 0x10, 2, 0x13, 2, 0x1F];
    let deny_first = [0x10, 2, 0x10, 1, 0x13, 2, 0x1F];
    assert_eq!(rt; told::<FourEffect>(0, &permit_first, 0), Ok(1));
    assert_eq!(rt; told::<FourEffect>(0, &deny_first, 0), Ok(2));
    assert_eq!(rt; told::<SixEffect>(0, &deny_first, 0), Ok(2));
}

// The answers over three facts, at the requests 0 to 7.
fn answers<A: EffectAlgebra>(rt: &impl Abort, tape: &[u8], codes: [u8; 8]) {
    for (request, code) in (0u32..).zip(codes) {
        assert_eq!(rt; told::<A>(3, tape, request), Ok(code));
    }
}

// The worked policies over student 0, faculty 1 and assign 2, at every request.
#[test]
fn worked_policies(rt: HostRuntime) {
    let a = [0x10, 1, 0x01, 1, 0x11, 0x1F];
    let b = [
        0x10, 1, 0x01, 1, 0x11, 0x10, 2, 0x01, 0, 0x11, 0x13, 0, 0x1F,
    ];
    let c = [
        0x10, 2, 0x01, 0, 0x11, 0x10, 1, 0x01, 1, 0x11, 0x13, 2, 0x1F,
    ];
    let d = [
        0x10, 1, 0x01, 1, 0x11, 0x10, 2, 0x01, 0, 0x11, 0x13, 3, 0x1F,
    ];
    let e = [0x10, 1, 0x01, 1, 0x11, 0x01, 2, 0x12, 0x1F];
    answers::<FourEffect>(&rt, &a, [0, 0, 1, 1, 0, 0, 1, 1]);
    answers::<FourEffect>(&rt, &b, [0, 2, 1, 2, 0, 2, 1, 2]);
    answers::<FourEffect>(&rt, &c, [0, 2, 1, 2, 0, 2, 1, 2]);
    answers::<FourEffect>(&rt, &d, [0, 2, 1, 3, 0, 2, 1, 3]);
    answers::<FourEffect>(&rt, &e, [0, 0, 1, 1, 3, 3, 3, 3]);
    answers::<SixEffect>(&rt, &e, [0, 0, 1, 1, 0, 0, 4, 4]);
}
