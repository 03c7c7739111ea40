// Names: which are good, which are equal, and where there is no room.
use crate::support::*;
use effects::FourEffect;
use probing::name::Name;
use shelf::{Shelf, is_good};
use std::process::Abort;
use std::test::Fail;

fn lettered(len: u8) -> Name {
    Name {
        len,
        bytes: [b'a'; 16],
    }
}

// A name of the byte alone, behind which stands what no name has.
fn of_byte(b: u8) -> Name {
    let mut bytes = [0xFF; 16];
    bytes[0] = b;
    Name { len: 1, bytes }
}

// Wants a name declared as the fact, or refused.
fn declares(rt: &impl Abort, shelf: &mut Shelf, name: Name, wanted: Result<u8, u8>) {
    let came = shelf.declare(&name).map_err(|refusal| refusal.number());
    assert_eq!(rt; came, wanted);
}

#[test]
fn lengths(rt: HostRuntime) -> Result<(), Fail> {
    let mut nodes = [OLD_NODE; 1];
    let mut names = [OLD_NAME; 8];
    let mut shelf = Shelf::make::<FourEffect>(7, &mut nodes, &mut names);
    declares(&rt, &mut shelf, lettered(0), Err(10));
    declares(&rt, &mut shelf, lettered(1), Ok(0));
    declares(&rt, &mut shelf, lettered(16), Ok(1));
    declares(&rt, &mut shelf, lettered(17), Err(10));
    declares(&rt, &mut shelf, lettered(255), Err(10));
    assert_eq!(rt; shelf.find(&lettered(16)), Some(1));
    assert_eq!(rt; shelf.find(&lettered(17)), None);
    assert_eq!(rt; shelf.find(&lettered(0)), None);
    assert_eq!(rt; shelf.find(&lettered(2)), None);
    Ok(())
}

#[test]
fn bytes(rt: HostRuntime) {
    for b in b"AZaz09-." {
        assert!(rt; is_good(&of_byte(*b)), "byte {b}");
    }
    for b in b"@[`{/:,_ \0\x7F\x80\xFF" {
        assert!(rt; !is_good(&of_byte(*b)), "byte {b}");
    }
    // a bad last byte counts as far as the length goes
    let mut last = lettered(16);
    last.bytes[15] = b'_';
    assert!(rt; !is_good(&last));
    last.len = 15;
    assert!(rt; is_good(&last));
}

#[test]
fn bad_bytes_are_refused(rt: HostRuntime) -> Result<(), Fail> {
    let mut nodes = [OLD_NODE; 1];
    let mut names = [OLD_NAME; 8];
    let mut shelf = Shelf::make::<FourEffect>(7, &mut nodes, &mut names);
    declares(&rt, &mut shelf, of_byte(b'/'), Err(10));
    assert_eq!(rt; shelf.find(&of_byte(b'/')), None);
    assert_eq!(rt; shelf.find(&of_byte(b'.')), None);
    declares(&rt, &mut shelf, of_byte(b'.'), Ok(0));
    assert_eq!(rt; shelf.find(&of_byte(b'.')), Some(0));
    Ok(())
}

#[test]
fn equal_names(rt: HostRuntime) -> Result<(), Fail> {
    let mut nodes = [OLD_NODE; 1];
    let mut names = [OLD_NAME; 8];
    let mut shelf = Shelf::make::<FourEffect>(7, &mut nodes, &mut names);
    let mut padded = FACULTY;
    padded.bytes[7] = b'x';
    padded.bytes[15] = 0xFF;
    let mut capital = FACULTY;
    capital.bytes[0] = b'F';
    declares(&rt, &mut shelf, FACULTY, Ok(0));
    declares(&rt, &mut shelf, padded, Ok(0));
    assert_eq!(rt; shelf.find(&padded), Some(0));
    assert_eq!(rt; shelf.find(&capital), None);
    declares(&rt, &mut shelf, capital, Ok(1));
    assert_eq!(rt; shelf.find(&FACULTY), Some(0));
    Ok(())
}

#[test]
fn full(rt: HostRuntime) -> Result<(), Fail> {
    let mut nodes = [OLD_NODE; 1];
    let mut names = [OLD_NAME; 2];
    let mut shelf = Shelf::make::<FourEffect>(7, &mut nodes, &mut names);
    declares(&rt, &mut shelf, STUDENT, Ok(0));
    declares(&rt, &mut shelf, FACULTY, Ok(1));
    declares(&rt, &mut shelf, ASSIGN, Err(11));
    declares(&rt, &mut shelf, STUDENT, Ok(0));
    declares(&rt, &mut shelf, FACULTY, Ok(1));
    assert_eq!(rt; shelf.find(&ASSIGN), None);
    // a bad name is a bad name first
    declares(&rt, &mut shelf, lettered(17), Err(10));
    Ok(())
}

#[test]
fn no_name_slots(rt: HostRuntime) -> Result<(), Fail> {
    let mut nodes = [OLD_NODE; 1];
    let mut names = [OLD_NAME; 0];
    let mut shelf = Shelf::make::<FourEffect>(7, &mut nodes, &mut names);
    declares(&rt, &mut shelf, STUDENT, Err(11));
    assert_eq!(rt; shelf.find(&STUDENT), None);
    Ok(())
}

#[test]
fn at_most_32(rt: HostRuntime) -> Result<(), Fail> {
    let mut nodes = [OLD_NODE; 1];
    let mut names = [OLD_NAME; 40];
    let mut shelf = Shelf::make::<FourEffect>(7, &mut nodes, &mut names);
    for n in 0..32 {
        declares(&rt, &mut shelf, numbered(n), Ok(n));
    }
    declares(&rt, &mut shelf, numbered(32), Err(11));
    declares(&rt, &mut shelf, numbered(31), Ok(31));
    assert_eq!(rt; shelf.find(&numbered(0)), Some(0));
    Ok(())
}
