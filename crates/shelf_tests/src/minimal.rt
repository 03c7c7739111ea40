// A shelf leans on nothing but what the interface of algebras asks.
use crate::hostile::Odd;
use crate::support::*;
use shelf::{Call, Shelf};
use single_effect::Single;
use std::test::Fail;

// Not applicable is the last code, and two equal effects break the one question.
#[test]
fn odd_effects(rt: HostRuntime) -> Result<(), Fail> {
    let mut nodes = [OLD_NODE; 8];
    let mut names = [OLD_NAME; 1];
    let mut shelf = Shelf::make::<Odd>(7, &mut nodes, &mut names);
    assert!(rt; shelf.declare(&STUDENT).is_ok());
    loads(&rt, &mut shelf, &[0x10, 0, 0x01, 0, 0x11, 0x1F], 0, 2);
    asked(&rt, &shelf, 0, 0, Ok(3));
    asked(&rt, &shelf, 0, 1, Ok(0));
    compares(&rt, &shelf, 0, 0, 0, &mut [OLD_PAIR; 2], Ok(Some(0)));
    loads(&rt, &mut shelf, &[0x10, 0, 0x1F], 1, 2);
    compares(&rt, &shelf, 0, 1, 0, &mut [OLD_PAIR; 2], Ok(Some(1)));
    loads(&rt, &mut shelf, &[0x10, 1, 0x1F], 2, 2);
    compares(&rt, &shelf, 0, 2, 0, &mut [OLD_PAIR; 2], Ok(None));
    compares(&rt, &shelf, 0, 2, 1, &mut [OLD_PAIR; 2], Err(51));
    Ok(())
}

// A policy joined with itself is another one.
#[test]
fn joined_with_itself(rt: HostRuntime) -> Result<(), Fail> {
    let mut nodes = [OLD_NODE; 8];
    let mut names = [OLD_NAME; 1];
    let mut shelf = Shelf::make::<Odd>(7, &mut nodes, &mut names);
    assert!(rt; shelf.declare(&STUDENT).is_ok());
    let policy = b"\x10\x01\x01\x00\x11\x1F";
    let twice = b"\x10\x01\x01\x00\x11\x10\x01\x01\x00\x11\x13\x00\x1F";
    loads(&rt, &mut shelf, policy, 0, 2);
    loads(&rt, &mut shelf, twice, 1, 3);
    asked(&rt, &shelf, 1, 0, Ok(0));
    asked(&rt, &shelf, 1, 1, Ok(2));
    assert_ne!(rt; shelf.shape(0)?, shelf.shape(1)?);
    compares(&rt, &shelf, 0, 1, 0, &mut [OLD_PAIR; 2], Ok(None));
    Ok(())
}

// A condition has two values though there is one effect only.
#[test]
fn one_effect(rt: HostRuntime) {
    let mut nodes = [OLD_NODE; 8];
    let mut names = [OLD_NAME; 1];
    let mut shelf = Shelf::make::<Single>(7, &mut nodes, &mut names);
    follows::<Single>(
        &rt,
        &mut shelf,
        &[
            (Call::Declare(STUDENT), Said::Fact(0)),
            (Call::Open, Said::Opened(draft(7, 0))),
            (Call::Feed(draft(7, 0), &[0x10, 0]), Said::Took(2)),
            (Call::Held, Said::Holding(0)),
            (Call::Feed(draft(7, 0), &[0x01, 0]), Said::Took(2)),
            (Call::Held, Said::Holding(1)),
            (Call::Feed(draft(7, 0), &[0x11]), Said::Took(1)),
            (Call::Held, Said::Holding(1)),
            (Call::Feed(draft(7, 0), &[0x13, 0]), Said::Refused(34)),
            (Call::Feed(draft(7, 0), &[0x1F]), Said::Took(1)),
            (Call::File(draft(7, 0)), Said::Filed(0)),
            (Call::Ask(0, 1), Said::Code(0)),
            (Call::Shape(0), Said::Shaped(0)),
            (Call::Compare(0, 0, 0), Said::Refused(51)),
            (Call::Load(&PERMIT), Said::RefusedAt(33, 0)),
        ],
    );
    compares(&rt, &shelf, 0, 0, 0, &mut [OLD_PAIR; 2], Err(51));
}
