// Drafts, named by their two numbers as in a list of calls.
use crate::support::*;
use effects::FourEffect;
use shelf::{Call, Shelf};
use std::process::Abort;
use std::test::Fail;

// Makes a shelf of number 7 with three facts, and makes the calls of a script on it.
fn plays(rt: &impl Abort, script: &[(Call, Said)]) {
    let mut nodes = [OLD_NODE; 16];
    let mut names = [OLD_NAME; 3];
    let mut shelf = Shelf::make::<FourEffect>(7, &mut nodes, &mut names);
    declare_three(rt, &mut shelf);
    follows::<FourEffect>(rt, &mut shelf, script);
}

#[test]
fn a_fact_declared_while_open(rt: HostRuntime) {
    let mut nodes = [OLD_NODE; 4];
    let mut names = [OLD_NAME; 2];
    let mut shelf = Shelf::make::<FourEffect>(7, &mut nodes, &mut names);
    follows::<FourEffect>(
        &rt,
        &mut shelf,
        &[
            (Call::Declare(STUDENT), Said::Fact(0)),
            (Call::Open, Said::Opened(draft(7, 0))),
            (Call::Feed(draft(7, 0), &[0x01, 0]), Said::Took(2)),
            (Call::Feed(draft(7, 0), &[0x01, 1]), Said::Refused(32)),
            (Call::Held, Said::Holding(1)),
            (Call::Declare(FACULTY), Said::Fact(1)),
            (Call::Held, Said::Holding(1)),
            (Call::Feed(draft(7, 0), &[0x01, 1]), Said::Took(2)),
            (Call::Held, Said::Holding(2)),
        ],
    );
}

#[test]
fn held_after_each_command(rt: HostRuntime) {
    plays(
        &rt,
        &[
            (Call::Load(&TAPE_A), Said::Loaded(0, 1)),
            (Call::Open, Said::Opened(draft(7, 0))),
            (Call::Held, Said::Holding(1)),
            (Call::Feed(draft(7, 0), &[0x10, 1]), Said::Took(2)),
            (Call::Held, Said::Holding(1)),
            (Call::Feed(draft(7, 0), &[0x01, 1]), Said::Took(2)),
            (Call::Held, Said::Holding(1)),
            (Call::Feed(draft(7, 0), &[0x11]), Said::Took(1)),
            (Call::Held, Said::Holding(1)),
            (Call::Feed(draft(7, 0), &[0x10, 2]), Said::Took(2)),
            (Call::Held, Said::Holding(1)),
            (Call::Feed(draft(7, 0), &[0x01, 0]), Said::Took(2)),
            (Call::Held, Said::Holding(2)),
            (Call::Feed(draft(7, 0), &[0x11]), Said::Took(1)),
            (Call::Held, Said::Holding(3)),
            (Call::Feed(draft(7, 0), &[0x13, 0]), Said::Took(2)),
            (Call::Held, Said::Holding(4)),
            (Call::Feed(draft(7, 0), &[0x1F]), Said::Took(1)),
            (Call::Held, Said::Holding(4)),
            (Call::File(draft(7, 0)), Said::Filed(1)),
            (Call::Held, Said::Holding(4)),
        ],
    );
}

#[test]
fn conditions_are_held(rt: HostRuntime) {
    plays(
        &rt,
        &[
            (Call::Open, Said::Opened(draft(7, 0))),
            (Call::Feed(draft(7, 0), &[0x01, 0]), Said::Took(2)),
            (Call::Held, Said::Holding(1)),
            (Call::Feed(draft(7, 0), &[0x01, 1]), Said::Took(2)),
            (Call::Held, Said::Holding(2)),
            (Call::Feed(draft(7, 0), &[0x06]), Said::Took(1)),
            (Call::Held, Said::Holding(3)),
        ],
    );
}

#[test]
fn masks_are_held(rt: HostRuntime) {
    plays(
        &rt,
        &[
            (Call::Open, Said::Opened(draft(7, 0))),
            (Call::Feed(draft(7, 0), &[0x02, 3, 0, 0, 0]), Said::Took(5)),
            (Call::Held, Said::Holding(2)),
            (Call::Abandon(draft(7, 0)), Said::Abandoned),
            (Call::Held, Said::Holding(0)),
            (Call::Open, Said::Opened(draft(7, 1))),
            (Call::Feed(draft(7, 1), &[0x03, 7, 0, 0, 0]), Said::Took(5)),
            (Call::Held, Said::Holding(3)),
        ],
    );
}

#[test]
fn one_at_a_time(rt: HostRuntime) {
    plays(
        &rt,
        &[
            (Call::Open, Said::Opened(draft(7, 0))),
            (Call::Open, Said::Refused(20)),
            (Call::Load(&PERMIT), Said::RefusedAt(20, 0)),
            (Call::Load(&[]), Said::RefusedAt(20, 0)),
            (Call::File(draft(7, 0)), Said::Refused(23)),
            (Call::Feed(draft(7, 0), &[0x10, 1]), Said::Took(2)),
            (Call::File(draft(7, 0)), Said::Refused(23)),
            (Call::Feed(draft(7, 0), &[0x1F]), Said::Took(1)),
            (Call::Open, Said::Refused(20)),
            (Call::File(draft(7, 0)), Said::Filed(0)),
            (Call::Open, Said::Opened(draft(7, 1))),
        ],
    );
}

// The number of bytes of one command, whatever follows it.
#[test]
fn one_command(rt: HostRuntime) {
    plays(
        &rt,
        &[
            (Call::Open, Said::Opened(draft(7, 0))),
            (Call::Feed(draft(7, 0), &[]), Said::Refused(31)),
            (Call::Feed(draft(7, 0), &[0x03, 7, 0, 0]), Said::Refused(31)),
            (Call::Feed(draft(7, 0), &[0x10, 1, 0xFF]), Said::Took(2)),
            (
                Call::Feed(draft(7, 0), &[0x03, 7, 0, 0, 0, 0x1F]),
                Said::Took(5),
            ),
            (Call::Feed(draft(7, 0), &[0x11, 0x00, 0x00]), Said::Took(1)),
            (Call::Feed(draft(7, 0), &[0x00]), Said::Refused(30)),
            (Call::Feed(draft(7, 0), &[0x1F, 0x1F]), Said::Took(1)),
            (Call::Feed(draft(7, 0), &[0x1F]), Said::Refused(38)),
            (Call::Feed(draft(7, 0), &[0xFF]), Said::Refused(38)),
            (Call::Feed(draft(7, 0), &[]), Said::Refused(38)),
            (Call::File(draft(7, 0)), Said::Filed(0)),
            (Call::Ask(0, 7), Said::Code(1)),
            (Call::Ask(0, 3), Said::Code(0)),
        ],
    );
}

#[test]
fn foreign(rt: HostRuntime) {
    plays(
        &rt,
        &[
            // while none is open
            (Call::Feed(draft(7, 0), &[0x10, 1]), Said::Refused(22)),
            (Call::File(draft(7, 0)), Said::Refused(22)),
            (Call::Abandon(draft(7, 0)), Said::Refused(22)),
            (Call::Feed(draft(7, 0xFFFF_FFFF), &[]), Said::Refused(22)),
            (Call::Open, Said::Opened(draft(7, 0))),
            // of another shelf, or not given out yet
            (Call::Feed(draft(8, 0), &[0x10, 1]), Said::Refused(22)),
            (Call::Feed(draft(7, 1), &[0x10, 1]), Said::Refused(22)),
            (Call::Feed(draft(8, 0), &[]), Said::Refused(22)),
            (Call::Abandon(draft(8, 0)), Said::Refused(22)),
            (Call::Abandon(draft(7, 1)), Said::Refused(22)),
            (Call::Feed(draft(7, 0), &[0x10, 1]), Said::Took(2)),
            (Call::File(draft(8, 0)), Said::Refused(22)),
            (Call::Feed(draft(7, 0), &[0x1F]), Said::Took(1)),
            (Call::Feed(draft(8, 0), &[0x1F]), Said::Refused(22)),
            (Call::File(draft(8, 0)), Said::Refused(22)),
            (Call::File(draft(7, 1)), Said::Refused(22)),
            (Call::File(draft(7, 0)), Said::Filed(0)),
        ],
    );
}

#[test]
fn stale(rt: HostRuntime) {
    plays(
        &rt,
        &[
            (Call::Open, Said::Opened(draft(7, 0))),
            (Call::Abandon(draft(7, 0)), Said::Abandoned),
            (Call::Abandon(draft(7, 0)), Said::Refused(22)),
            (Call::Open, Said::Opened(draft(7, 1))),
            (Call::Feed(draft(7, 0), &[0x10, 1]), Said::Refused(22)),
            (Call::Feed(draft(7, 1), &[0x10, 1]), Said::Took(2)),
            (Call::Feed(draft(7, 1), &[0x1F]), Said::Took(1)),
            (Call::File(draft(7, 0)), Said::Refused(22)),
            (Call::Abandon(draft(7, 0)), Said::Refused(22)),
            (Call::File(draft(7, 1)), Said::Filed(0)),
            (Call::File(draft(7, 1)), Said::Refused(22)),
            (Call::Feed(draft(7, 1), &[0x1F]), Said::Refused(22)),
            (Call::Abandon(draft(7, 1)), Said::Refused(22)),
        ],
    );
}

// Neither a refused opening nor a load is counted.
#[test]
fn counted_by_openings(rt: HostRuntime) {
    plays(
        &rt,
        &[
            (Call::Load(&PERMIT), Said::Loaded(0, 0)),
            (Call::Open, Said::Opened(draft(7, 0))),
            (Call::Open, Said::Refused(20)),
            (Call::Open, Said::Refused(20)),
            (Call::Abandon(draft(7, 0)), Said::Abandoned),
            (Call::Load(&PERMIT), Said::Loaded(1, 0)),
            (Call::Load(&[]), Said::RefusedAt(41, 0)),
            (Call::Open, Said::Opened(draft(7, 1))),
            (Call::Abandon(draft(7, 1)), Said::Abandoned),
            (Call::Open, Said::Opened(draft(7, 2))),
        ],
    );
}

#[test]
fn abandoning_sets_back(rt: HostRuntime) {
    plays(
        &rt,
        &[
            (Call::Load(&TAPE_A), Said::Loaded(0, 1)),
            (Call::Open, Said::Opened(draft(7, 0))),
            (Call::Feed(draft(7, 0), &[0x10, 2]), Said::Took(2)),
            (Call::Feed(draft(7, 0), &[0x01, 0]), Said::Took(2)),
            (Call::Feed(draft(7, 0), &[0x11]), Said::Took(1)),
            (Call::Feed(draft(7, 0), &[0x1F]), Said::Took(1)),
            (Call::Held, Said::Holding(3)),
            (Call::Abandon(draft(7, 0)), Said::Abandoned),
            (Call::Held, Said::Holding(1)),
            (Call::Shape(1), Said::Refused(50)),
            (Call::Ask(0, 2), Said::Code(1)),
        ],
    );
}

// A policy that was abandoned and is filed later has the shape that it has on a shelf where nothing was abandoned.
#[test]
fn filed_after_it_was_abandoned(rt: HostRuntime) -> Result<(), Fail> {
    let mut nodes = [OLD_NODE; 16];
    let mut names = [OLD_NAME; 3];
    let mut shelf = Shelf::make::<FourEffect>(7, &mut nodes, &mut names);
    declare_three(&rt, &mut shelf);
    loads(&rt, &mut shelf, &TAPE_B, 0, 4);
    loads(&rt, &mut shelf, &TAPE_D, 1, 6);
    let alone = shelf.shape(1)?;
    drop(shelf);
    let mut shelf = Shelf::make::<FourEffect>(7, &mut nodes, &mut names);
    declare_three(&rt, &mut shelf);
    loads(&rt, &mut shelf, &TAPE_B, 0, 4);
    follows::<FourEffect>(
        &rt,
        &mut shelf,
        &[
            (Call::Open, Said::Opened(draft(7, 0))),
            (Call::Feed(draft(7, 0), &[0x03, 7, 0, 0, 0]), Said::Took(5)),
            (Call::Held, Said::Holding(7)),
            (Call::Abandon(draft(7, 0)), Said::Abandoned),
            (Call::Held, Said::Holding(4)),
            (Call::Load(&TAPE_D), Said::Loaded(1, 6)),
            (Call::Load(&TAPE_C), Said::Loaded(2, 6)),
        ],
    );
    assert_eq!(rt; shelf.shape(1)?, alone);
    assert_eq!(rt; shelf.shape(0)?, shelf.shape(2)?);
    Ok(())
}

#[test]
fn at_most_64_policies(rt: HostRuntime) -> Result<(), Fail> {
    let mut nodes = [OLD_NODE; 1];
    let mut names = [OLD_NAME; 1];
    let mut shelf = Shelf::make::<FourEffect>(7, &mut nodes, &mut names);
    for policy in 0..63 {
        loads(&rt, &mut shelf, &PERMIT, policy, 0);
    }
    follows::<FourEffect>(
        &rt,
        &mut shelf,
        &[
            (Call::Open, Said::Opened(draft(7, 0))),
            (Call::Feed(draft(7, 0), &[0x10, 2]), Said::Took(2)),
            (Call::Feed(draft(7, 0), &[0x1F]), Said::Took(1)),
            (Call::File(draft(7, 0)), Said::Filed(63)),
            (Call::Open, Said::Refused(21)),
            (Call::Load(&PERMIT), Said::RefusedAt(21, 0)),
            (Call::Load(&[]), Said::RefusedAt(21, 0)),
            (Call::Ask(63, 0), Said::Code(2)),
            (Call::Ask(64, 0), Said::Refused(50)),
        ],
    );
    Ok(())
}
