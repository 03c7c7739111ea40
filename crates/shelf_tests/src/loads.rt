// Loading whole tapes.
use crate::support::*;
use effects::FourEffect;
use shelf::{Call, Shelf};
use std::test::Fail;

#[test]
fn worked_tapes(rt: HostRuntime) -> Result<(), Fail> {
    let mut nodes = [OLD_NODE; 16];
    let mut names = [OLD_NAME; 3];
    let mut shelf = Shelf::make::<FourEffect>(7, &mut nodes, &mut names);
    declare_three(&rt, &mut shelf);
    loads(&rt, &mut shelf, &TAPE_A, 0, 1);
    loads(&rt, &mut shelf, &TAPE_B, 1, 4);
    loads(&rt, &mut shelf, &TAPE_C, 2, 4);
    loads(&rt, &mut shelf, &TAPE_D, 3, 6);
    let a = shelf.shape(0)?;
    let b = shelf.shape(1)?;
    let d = shelf.shape(3)?;
    assert_eq!(rt; shelf.shape(2)?, b);
    assert!(rt; a != b && a != d && b != d);
    loads(&rt, &mut shelf, &TAPE_E, 4, 10);
    // a shape stands while its policy is filed
    assert_eq!(rt; shelf.shape(0)?, a);
    let e = shelf.shape(4)?;
    assert!(rt; e != a && e != b && e != d);
    Ok(())
}

#[test]
fn effects_of_the_worked_tapes(rt: HostRuntime) -> Result<(), Fail> {
    let mut nodes = [OLD_NODE; 16];
    let mut names = [OLD_NAME; 3];
    let mut shelf = Shelf::make::<FourEffect>(7, &mut nodes, &mut names);
    declare_three(&rt, &mut shelf);
    loads(&rt, &mut shelf, &TAPE_B, 0, 4);
    loads(&rt, &mut shelf, &TAPE_D, 1, 6);
    let at = [
        (0, 0),
        (2, 2),
        (1, 1),
        (2, 3),
        (0, 0),
        (2, 2),
        (1, 1),
        (2, 3),
    ];
    for (request, (b, d)) in (0u32..).zip(at) {
        asked(&rt, &shelf, 0, request, Ok(b));
        asked(&rt, &shelf, 1, request, Ok(d));
    }
    Ok(())
}

#[test]
fn refused_at_a_place(rt: HostRuntime) -> Result<(), Fail> {
    let mut nodes = [OLD_NODE; 16];
    let mut names = [OLD_NAME; 3];
    let mut shelf = Shelf::make::<FourEffect>(7, &mut nodes, &mut names);
    declare_three(&rt, &mut shelf);
    refuses_tape(&rt, &mut shelf, &[], 41, 0);
    refuses_tape(&rt, &mut shelf, &[0x10, 1], 41, 2);
    refuses_tape(&rt, &mut shelf, &[0x10], 31, 0);
    refuses_tape(&rt, &mut shelf, &[0x10, 1, 0x03, 7, 0, 0], 31, 2);
    refuses_tape(&rt, &mut shelf, &[0x10, 1, 0x01, 3], 32, 2);
    refuses_tape(&rt, &mut shelf, &[0x10, 3], 33, 0);
    refuses_tape(&rt, &mut shelf, &[0x13, 4], 34, 0);
    refuses_tape(&rt, &mut shelf, &[0x13, 3], 35, 0);
    refuses_tape(&rt, &mut shelf, &[0x1F], 37, 0);
    refuses_tape(&rt, &mut shelf, &[0xFF], 30, 0);
    Ok(())
}

// A byte after END undoes what was read before it.
#[test]
fn all_is_undone(rt: HostRuntime) -> Result<(), Fail> {
    let mut nodes = [OLD_NODE; 16];
    let mut names = [OLD_NAME; 3];
    let mut shelf = Shelf::make::<FourEffect>(7, &mut nodes, &mut names);
    declare_three(&rt, &mut shelf);
    loads(&rt, &mut shelf, &TAPE_A, 0, 1);
    refuses_tape(
        &rt,
        &mut shelf,
        &[0x10, 2, 0x01, 0, 0x11, 0x1F, 0xFF],
        38,
        6,
    );
    refuses_tape(
        &rt,
        &mut shelf,
        &[0x10, 2, 0x01, 0, 0x11, 0x1F, 0x1F],
        38,
        6,
    );
    refuses_tape(&rt, &mut shelf, &[0x10, 2, 0x01, 0, 0x11], 41, 5);
    asked(&rt, &shelf, 1, 0, Err(50));
    asked(&rt, &shelf, 0, 2, Ok(1));
    loads(&rt, &mut shelf, &TAPE_B, 1, 4);
    Ok(())
}

#[test]
fn too_long(rt: HostRuntime) -> Result<(), Fail> {
    let mut nodes = [OLD_NODE; 1];
    let mut names = [OLD_NAME; 1];
    let long = [0x04; 65536];
    let mut shelf = Shelf::make::<FourEffect>(7, &mut nodes, &mut names);
    refuses_tape(&rt, &mut shelf, &long, 40, 0);
    refuses_tape(&rt, &mut shelf, &long[1..], 35, 0);
    // its length is looked at before the open draft
    follows::<FourEffect>(
        &rt,
        &mut shelf,
        &[
            (Call::Open, Said::Opened(draft(7, 0))),
            (Call::Load(&PERMIT), Said::RefusedAt(20, 0)),
        ],
    );
    refuses_tape(&rt, &mut shelf, &long, 40, 0);
    Ok(())
}

// 65,535 bytes are not too many.
#[test]
fn longest(rt: HostRuntime) -> Result<(), Fail> {
    let mut tape = Vec::new(rt.alloc());
    tape.push(0x10u8)?;
    tape.push(1)?;
    for _ in 0..21844 {
        tape.extend_from_slice(&[0x01, 0, 0x11])?;
    }
    tape.push(0x1F)?;
    assert_eq!(rt; tape.len(), 65535);
    let mut nodes = [OLD_NODE; 1];
    let mut names = [OLD_NAME; 1];
    let mut shelf = Shelf::make::<FourEffect>(7, &mut nodes, &mut names);
    assert!(rt; shelf.declare(&STUDENT).is_ok());
    loads(&rt, &mut shelf, &tape, 0, 1);
    asked(&rt, &shelf, 0, 1, Ok(1));
    asked(&rt, &shelf, 0, 0, Ok(0));
    Ok(())
}
