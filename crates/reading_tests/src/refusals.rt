// Every refusal at its boundaries, and which comes first.
use crate::reading::told;
use effects::{FourEffect, SixEffect};
use std::process::Abort;
use tape::{Layer, Refusal};

// Four effects over three facts, at the empty request.
fn refuses(rt: &impl Abort, tape: &[u8], number: u8, place: usize) {
    assert_eq!(rt; told::<FourEffect>(3, tape, 0), Err((number, place)));
}

#[test]
fn before_the_first_command(rt: HostRuntime) {
    let long = [0x04; 65536];
    assert_eq!(rt; told::<FourEffect>(33, &long, 0), Err((53, 0)));
    assert_eq!(rt; told::<FourEffect>(255, &[], 1), Err((53, 0)));
    assert_eq!(rt; told::<FourEffect>(3, &long, 8), Err((52, 0)));
    assert_eq!(rt; told::<FourEffect>(0, &[], 1), Err((52, 0)));
    assert_eq!(rt; told::<FourEffect>(31, &[], 0x8000_0000), Err((52, 0)));
    assert_eq!(rt; told::<FourEffect>(3, &long, 7), Err((40, 0)));
    let deny = [0x10, 0x02, 0x1F];
    assert_eq!(rt; told::<FourEffect>(32, &deny, 0xFFFF_FFFF), Ok(2));
    assert_eq!(rt; told::<FourEffect>(0, &deny, 0), Ok(2));
}

// 65,535 bytes are not too many.
#[test]
fn longest_tape(rt: HostRuntime) {
    let mut tape = [0x04; 65535];
    tape[0] = 0x10;
    tape[1] = 0x01;
    tape[2] = 0x01;
    tape[3] = 0x00;
    tape[65533] = 0x11;
    tape[65534] = 0x1F;
    assert_eq!(rt; told::<FourEffect>(1, &tape, 0), Ok(1));
    assert_eq!(rt; told::<FourEffect>(1, &tape, 1), Ok(0));
}

#[test]
fn bytes(rt: HostRuntime) {
    refuses(&rt, &[0x00], 30, 0);
    refuses(&rt, &[0x07], 30, 0);
    refuses(&rt, &[0x10, 0x01, 0x0F], 30, 2);
    refuses(&rt, &[0x14], 30, 0);
    refuses(&rt, &[0x1E], 30, 0);
    refuses(&rt, &[0x20], 30, 0);
    refuses(&rt, &[0xFF], 30, 0);
    refuses(&rt, &[0x01], 31, 0);
    refuses(&rt, &[0x02, 0, 0, 0], 31, 0);
    refuses(&rt, &[0x03, 0, 0, 0], 31, 0);
    refuses(&rt, &[0x01, 0x00, 0x10], 31, 2);
    refuses(&rt, &[0x10, 0x01, 0x13], 31, 2);
    refuses(&rt, &[], 41, 0);
    refuses(&rt, &[0x10, 0x01], 41, 2);
    refuses(&rt, &[0x02, 7, 0, 0, 0], 41, 5);
}

#[test]
fn operands(rt: HostRuntime) {
    refuses(&rt, &[0x01, 3], 32, 0);
    refuses(&rt, &[0x01, 2], 41, 2);
    refuses(&rt, &[0x01, 255], 32, 0);
    refuses(&rt, &[0x02, 8, 0, 0, 0], 32, 0);
    refuses(&rt, &[0x03, 0, 0, 0, 0x80], 32, 0);
    assert_eq!(rt; told::<FourEffect>(32, &[0x01, 32], 0), Err((32, 0)));
    let last_facts = [0x01, 31, 0x03, 0xFF, 0xFF, 0xFF, 0xFF];
    assert_eq!(rt; told::<FourEffect>(32, &last_facts, 0), Err((41, 7)));
    assert_eq!(rt; told::<FourEffect>(0, &[0x02, 1, 0, 0, 0], 0), Err((32, 0)));
    assert_eq!(rt; told::<FourEffect>(0, &[0x02, 0, 0, 0, 0], 0), Err((41, 5)));
    refuses(&rt, &[0x10, 0], 33, 0);
    refuses(&rt, &[0x10, 3], 33, 0);
    refuses(&rt, &[0x10, 4], 33, 0);
    refuses(&rt, &[0x10, 255], 33, 0);
    assert_eq!(rt; told::<SixEffect>(3, &[0x10, 5], 0), Err((33, 0)));
    assert_eq!(rt; told::<SixEffect>(3, &[0x10, 6], 0), Err((33, 0)));
    refuses(&rt, &[0x13, 4], 34, 0);
    refuses(&rt, &[0x13, 3], 35, 0);
    assert_eq!(rt; told::<SixEffect>(3, &[0x13, 3], 0), Err((34, 0)));
    assert_eq!(rt; told::<SixEffect>(3, &[0x13, 2], 0), Err((35, 0)));
}

#[test]
fn entries(rt: HostRuntime) {
    refuses(&rt, &[0x04], 35, 0);
    refuses(&rt, &[0x10, 1, 0x04], 35, 2);
    refuses(&rt, &[0x01, 0, 0x05], 35, 2);
    refuses(&rt, &[0x01, 0, 0x10, 1, 0x06], 35, 4);
    refuses(&rt, &[0x01, 0, 0x10, 1, 0x11], 35, 4);
    refuses(&rt, &[0x10, 1, 0x12], 35, 2);
    refuses(&rt, &[0x10, 1, 0x01, 0, 0x13, 0], 35, 4);
    refuses(&rt, &[0x1F], 37, 0);
    refuses(&rt, &[0x01, 0, 0x1F], 37, 2);
    refuses(&rt, &[0x10, 1, 0x10, 2, 0x1F], 37, 4);
    refuses(&rt, &[0x10, 1, 0x1F, 0x04], 38, 3);
    refuses(&rt, &[0x10, 1, 0x1F, 0xFF], 38, 3);
    refuses(&rt, &[0x10, 1, 0x1F, 0x1F], 38, 3);
}

// 32 entries are not too many, and commands that take entries go on working on a full stack.
#[test]
fn full_stack(rt: HostRuntime) {
    let mut tape = [0x04; 96];
    for push in tape[..64].chunks_exact_mut(2) {
        push.copy_from_slice(&[0x01, 0]);
    }
    refuses(&rt, &tape, 41, 96);
    tape[64] = 0x05;
    refuses(&rt, &tape, 41, 96);
    tape[64] = 0x01;
    tape[65] = 0;
    refuses(&rt, &tape, 36, 64);
    tape[64] = 0x10;
    tape[65] = 1;
    refuses(&rt, &tape, 36, 64);
    tape[64] = 0x01;
    tape[65] = 3;
    refuses(&rt, &tape, 32, 64);
    tape[64] = 0x1F;
    refuses(&rt, &tape, 37, 64);
}

#[test]
fn layers(rt: HostRuntime) {
    assert_eq!(rt; Refusal::WrongEnd.layer(), Layer::Command);
    assert_eq!(rt; Refusal::NoEnd.layer(), Layer::Tape);
    assert_eq!(rt; Refusal::TooManyFacts.layer(), Layer::Question);
    assert_eq!(rt; Refusal::NoSlot.layer(), Layer::Slots);
}
