// What is asked of filed policies.
use crate::support::*;
use effects::FourEffect;
use shelf::Shelf;
use std::process::Abort;
use std::test::Fail;

// Wants the six answers of the comparison, with a scratch of 0, 1, 3 and 64 slots.
fn part(rt: &impl Abort, shelf: &Shelf, first: u8, second: u8, wanted: [Option<u32>; 6]) {
    for (question, answer) in (0..6u8).zip(wanted) {
        for size in [0, 1, 3, 64] {
            let mut scratch = [OLD_PAIR; 64];
            compares(
                rt,
                shelf,
                first,
                second,
                question,
                &mut scratch[..size],
                Ok(answer),
            );
        }
    }
}

// The policies A, B and D against each other.
#[test]
fn comparisons(rt: HostRuntime) -> Result<(), Fail> {
    let mut nodes = [OLD_NODE; 16];
    let mut names = [OLD_NAME; 3];
    let mut shelf = Shelf::make::<FourEffect>(7, &mut nodes, &mut names);
    declare_three(&rt, &mut shelf);
    loads(&rt, &mut shelf, &TAPE_A, 0, 1);
    loads(&rt, &mut shelf, &TAPE_B, 1, 4);
    loads(&rt, &mut shelf, &TAPE_D, 2, 6);
    part(
        &rt,
        &shelf,
        0,
        1,
        [Some(1), Some(3), None, None, Some(3), Some(3)],
    );
    part(
        &rt,
        &shelf,
        1,
        0,
        [Some(1), None, Some(1), Some(3), Some(1), Some(3)],
    );
    part(
        &rt,
        &shelf,
        0,
        2,
        [Some(1), Some(3), None, None, Some(3), None],
    );
    part(
        &rt,
        &shelf,
        1,
        2,
        [Some(3), None, Some(3), None, Some(3), None],
    );
    part(&rt, &shelf, 2, 1, [Some(3), None, None, None, None, None]);
    part(&rt, &shelf, 1, 1, [None, None, None, None, None, None]);
    Ok(())
}

#[test]
fn refused_comparisons(rt: HostRuntime) -> Result<(), Fail> {
    let mut nodes = [OLD_NODE; 16];
    let mut names = [OLD_NAME; 3];
    let mut shelf = Shelf::make::<FourEffect>(7, &mut nodes, &mut names);
    let mut scratch = [OLD_PAIR; 3];
    compares(&rt, &shelf, 0, 0, 0, &mut scratch, Err(50));
    declare_three(&rt, &mut shelf);
    loads(&rt, &mut shelf, &TAPE_A, 0, 1);
    compares(&rt, &shelf, 0, 1, 0, &mut [OLD_PAIR; 3], Err(50));
    compares(&rt, &shelf, 1, 0, 0, &mut [OLD_PAIR; 3], Err(50));
    compares(&rt, &shelf, 0, 255, 6, &mut [OLD_PAIR; 3], Err(50));
    compares(&rt, &shelf, 0, 0, 6, &mut [OLD_PAIR; 3], Err(51));
    compares(&rt, &shelf, 0, 0, 255, &mut [OLD_PAIR; 3], Err(51));
    compares(&rt, &shelf, 0, 0, 5, &mut [OLD_PAIR; 3], Ok(None));
    Ok(())
}

// The first request is not the one with the smallest mask: a request without fact 0 comes before every one with it, and among
// those that agree on fact 0 the next fact decides.
#[test]
fn in_the_request_order(rt: HostRuntime) -> Result<(), Fail> {
    let mut nodes = [OLD_NODE; 16];
    let mut names = [OLD_NAME; 3];
    let mut shelf = Shelf::make::<FourEffect>(7, &mut nodes, &mut names);
    declare_three(&rt, &mut shelf);
    loads(&rt, &mut shelf, &PERMIT, 0, 0);
    let guarded = [0x10, 1, 0x02, 6, 0, 0, 0, 0x04, 0x11, 0x1F];
    assert!(rt; shelf.load(&guarded).is_ok());
    asked(&rt, &shelf, 1, 2, Ok(0));
    asked(&rt, &shelf, 1, 4, Ok(0));
    compares(&rt, &shelf, 0, 1, 1, &mut [OLD_PAIR; 3], Ok(Some(4)));
    compares(&rt, &shelf, 1, 0, 1, &mut [OLD_PAIR; 3], Ok(None));
    Ok(())
}

#[test]
fn asking(rt: HostRuntime) -> Result<(), Fail> {
    let mut nodes = [OLD_NODE; 16];
    let mut names = [OLD_NAME; 3];
    let mut shelf = Shelf::make::<FourEffect>(7, &mut nodes, &mut names);
    declare_three(&rt, &mut shelf);
    asked(&rt, &shelf, 0, 8, Err(50));
    loads(&rt, &mut shelf, &TAPE_A, 0, 1);
    asked(&rt, &shelf, 0, 7, Ok(1));
    asked(&rt, &shelf, 0, 8, Err(52));
    asked(&rt, &shelf, 0, 0xFFFF_FFFF, Err(52));
    asked(&rt, &shelf, 1, 8, Err(50));
    asked(&rt, &shelf, 255, 0, Err(50));
    assert!(rt; shelf.shape(1).is_err());
    Ok(())
}

#[test]
fn no_facts(rt: HostRuntime) -> Result<(), Fail> {
    let mut nodes = [OLD_NODE; 1];
    let mut names = [OLD_NAME; 1];
    let mut shelf = Shelf::make::<FourEffect>(7, &mut nodes, &mut names);
    loads(&rt, &mut shelf, &PERMIT, 0, 0);
    asked(&rt, &shelf, 0, 0, Ok(1));
    asked(&rt, &shelf, 0, 1, Err(52));
    refuses_tape(&rt, &mut shelf, &[0x01, 0], 32, 0);
    Ok(())
}

#[test]
fn all_32_facts(rt: HostRuntime) -> Result<(), Fail> {
    let mut nodes = [OLD_NODE; 64];
    let mut names = [OLD_NAME; 32];
    let mut shelf = Shelf::make::<FourEffect>(7, &mut nodes, &mut names);
    for n in 0..32 {
        assert!(rt; shelf.declare(&numbered(n)).is_ok());
    }
    loads(&rt, &mut shelf, &[0x10, 1, 0x01, 0x1F, 0x11, 0x1F], 0, 1);
    asked(&rt, &shelf, 0, 0xFFFF_FFFF, Ok(1));
    asked(&rt, &shelf, 0, 0x7FFF_FFFF, Ok(0));
    let all = [0x10, 1, 0x03, 0xFF, 0xFF, 0xFF, 0xFF, 0x11, 0x1F];
    loads(&rt, &mut shelf, &all, 1, 32);
    asked(&rt, &shelf, 1, 0xFFFF_FFFF, Ok(1));
    asked(&rt, &shelf, 1, 0xFFFF_FFFE, Ok(0));
    compares(
        &rt,
        &shelf,
        0,
        1,
        1,
        &mut [OLD_PAIR; 3],
        Ok(Some(0x8000_0000)),
    );
    refuses_tape(&rt, &mut shelf, &[0x10, 1, 0x01, 0x20], 32, 2);
    Ok(())
}
