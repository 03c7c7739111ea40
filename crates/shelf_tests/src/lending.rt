// What is lent: how many slots there are, what stood in them, and what is left alone.
use crate::support::*;
use effects::{FourEffect, SixEffect};
use probing::node::Node;
use shelf::Shelf;
use std::test::Fail;

#[test]
fn one_slot(rt: HostRuntime) -> Result<(), Fail> {
    let mut nodes = [OLD_NODE; 1];
    let mut names = [OLD_NAME; 3];
    let mut shelf = Shelf::make::<FourEffect>(7, &mut nodes, &mut names);
    declare_three(&rt, &mut shelf);
    loads(&rt, &mut shelf, &TAPE_A, 0, 1);
    refuses_tape(&rt, &mut shelf, &TAPE_B, 39, 7);
    asked(&rt, &shelf, 0, 2, Ok(1));
    asked(&rt, &shelf, 1, 2, Err(50));
    Ok(())
}

#[test]
fn four_slots(rt: HostRuntime) -> Result<(), Fail> {
    let mut nodes = [OLD_NODE; 4];
    let mut names = [OLD_NAME; 3];
    let mut shelf = Shelf::make::<FourEffect>(7, &mut nodes, &mut names);
    declare_three(&rt, &mut shelf);
    loads(&rt, &mut shelf, &TAPE_A, 0, 1);
    loads(&rt, &mut shelf, &TAPE_B, 1, 4);
    loads(&rt, &mut shelf, &TAPE_C, 2, 4);
    refuses_tape(&rt, &mut shelf, &TAPE_D, 39, 10);
    Ok(())
}

#[test]
fn no_slots(rt: HostRuntime) -> Result<(), Fail> {
    let mut nodes = [OLD_NODE; 0];
    let mut names = [OLD_NAME; 1];
    let mut shelf = Shelf::make::<FourEffect>(7, &mut nodes, &mut names);
    assert!(rt; shelf.declare(&STUDENT).is_ok());
    loads(&rt, &mut shelf, &PERMIT, 0, 0);
    refuses_tape(&rt, &mut shelf, &[0x10, 1, 0x01, 0, 0x11, 0x1F], 39, 2);
    // what is no fact's needs no slot
    loads(
        &rt,
        &mut shelf,
        &[0x10, 1, 0x02, 0, 0, 0, 0, 0x11, 0x1F],
        1,
        0,
    );
    asked(&rt, &shelf, 1, 1, Ok(0));
    Ok(())
}

// The tape E, filed alone: failed forms differ more under four effects than under six.
#[test]
fn by_the_algebra(rt: HostRuntime) -> Result<(), Fail> {
    let mut nodes = [OLD_NODE; 16];
    let mut names = [OLD_NAME; 3];
    let mut four = Shelf::make::<FourEffect>(7, &mut nodes, &mut names);
    declare_three(&rt, &mut four);
    loads(&rt, &mut four, &TAPE_E, 0, 5);
    asked(&rt, &four, 0, 4, Ok(3));
    drop(four);
    let mut six = Shelf::make::<SixEffect>(7, &mut nodes, &mut names);
    declare_three(&rt, &mut six);
    loads(&rt, &mut six, &TAPE_E, 0, 4);
    asked(&rt, &six, 0, 4, Ok(0));
    asked(&rt, &six, 0, 6, Ok(4));
    Ok(())
}

// A shelf uses 32 name slots at most, and clears no others.
#[test]
fn names_beyond(rt: HostRuntime) {
    let mut nodes = [OLD_NODE; 1];
    let mut names = [OLD_NAME; 33];
    let shelf = Shelf::make::<FourEffect>(7, &mut nodes, &mut names);
    drop(shelf);
    assert_eq!(rt; names[31].key.len, 0);
    assert_eq!(rt; names[31].serial, 0);
    assert_eq!(rt; names[31].key.bytes, [0; 16]);
    assert_eq!(rt; names[32].key.len, OLD_NAME.key.len);
    assert_eq!(rt; names[32].serial, OLD_NAME.serial);
    assert_eq!(rt; names[32].key.bytes, OLD_NAME.key.bytes);
}

// It uses 65,520 slots at most, and clears no others.
#[test]
fn nodes_beyond(rt: HostRuntime) -> Result<(), Fail> {
    let mut nodes = vec![in rt.alloc(); OLD_NODE; 65522]?;
    let mut names = [OLD_NAME; 3];
    let mut shelf = Shelf::make::<FourEffect>(7, &mut nodes, &mut names);
    declare_three(&rt, &mut shelf);
    loads(&rt, &mut shelf, &TAPE_B, 0, 4);
    drop(shelf);
    let last = nodes.get(65519).copied().ok_or("no slot 65519")?;
    assert_eq!(rt; last.key, Node::default());
    let spare = nodes.get(65520).copied().ok_or("no slot 65520")?;
    assert_eq!(rt; spare, OLD_NODE);
    let spare = nodes.get(65521).copied().ok_or("no slot 65521")?;
    assert_eq!(rt; spare, OLD_NODE);
    Ok(())
}
