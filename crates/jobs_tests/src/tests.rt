use composing::ComposeError::Unreadable;
use composing::{ComposeError, compose};
use jobs::{Line, parse};
use shelf::Call;
use std::alloc::{AllocError, Global};
use std::test::Fail;

const SIX_LINES: &[u8] =
    b"declare student\ndeclare faculty\nload 10 01 01 01 11 1f\nload 10 01 01 01 11 10 02 01 00 11 13 00 1F\ncompare 0 1 1\nask 1 3\n";

// How many calls a job has, and where it is bad.
fn taken(heap: Global, job: &[u8]) -> Result<(usize, Option<usize>), AllocError> {
    let job = parse(heap, job)?;
    Ok((job.calls.len(), job.bad))
}

// Why a text has no job, if it has none.
fn error_of(heap: Global, text: &[u8]) -> Option<ComposeError> {
    compose(heap, text).err()
}

#[test]
fn good_jobs(rt: HostRuntime) -> Result<(), Fail> {
    assert_eq!(rt; taken(rt.alloc(), &[])?, (0, None));
    assert_eq!(rt; taken(rt.alloc(), &[0x41, 0, 0, 0x42, 1, 2, 3])?, (2, None));
    let job = parse(rt.alloc(), &[0x43, 7, 4, 3, 2, 1])?;
    match job.calls.get(0) {
        Some(Call::Ask(7, 0x01020304)) => Ok(()),
        _ => Err(Fail::new("another call")),
    }
}

#[test]
fn bad_jobs(rt: HostRuntime) -> Result<(), Fail> {
    assert_eq!(rt; taken(rt.alloc(), &[0x44])?, (0, Some(0)));
    assert_eq!(rt; taken(rt.alloc(), &[0x41, 0, 0, 0x3F])?, (1, Some(3)));
    assert_eq!(rt; taken(rt.alloc(), &[0x40; 17])?, (0, Some(0)));
    assert_eq!(rt; taken(rt.alloc(), &[0x41, 0])?, (0, Some(0)));
    assert_eq!(rt; taken(rt.alloc(), &[0x41, 2, 0, 0])?, (0, Some(0)));
    assert_eq!(rt;
        taken(rt.alloc(), &[0x42, 0, 0, 0, 0x42, 0, 0])?,
        (1, Some(4))
    );
    assert_eq!(rt; taken(rt.alloc(), &[0x43, 0, 0, 0, 0])?, (0, Some(0)));
    Ok(())
}

#[test]
fn long_jobs(rt: HostRuntime) -> Result<(), Fail> {
    let mut job = [0x42u8; 65536];
    assert_eq!(rt; taken(rt.alloc(), &job)?, (0, Some(0)));
    job[0] = 0x41;
    job[1] = 0xFC;
    job[2] = 0xFF;
    assert_eq!(rt; taken(rt.alloc(), &job[0..65535])?, (1, None));
    Ok(())
}

#[test]
fn printed_lines(rt: HostRuntime) -> Result<(), Fail> {
    let line = Line::Refused(39, 7);
    assert!(rt; format!(in rt.alloc(); "{line}")?.as_str() == "R 39 7");
    let line = Line::Kept;
    assert!(rt; format!(in rt.alloc(); "{line}")?.as_str() == "C kept");
    Ok(())
}

#[test]
fn printed_errors(rt: HostRuntime) -> Result<(), Fail> {
    let error = Unreadable(12);
    assert!(rt; format!(in rt.alloc(); "{error}")?.as_str() == "line 12: cannot be read");
    Ok(())
}

#[test]
fn texts(rt: HostRuntime) -> Result<(), Fail> {
    let job = compose(rt.alloc(), b"")?;
    assert!(rt; job.is_empty());
    let job = compose(rt.alloc(), b"# nothing\n\n \t# here\r\n")?;
    assert!(rt; job.is_empty());
    let job = compose(rt.alloc(), b"load\r\nask\t2 258#")?;
    assert_eq!(rt;
        job.as_slice(),
        [0x41, 0, 0, 0x43, 2, 2, 1, 0, 0].as_slice()
    );
    let job = compose(rt.alloc(), b" load aB 0c\n")?;
    assert_eq!(rt; job.as_slice(), [0x41, 2, 0, 0xAB, 0x0C].as_slice());
    let job = compose(rt.alloc(), b"compare 0 001 255")?;
    assert_eq!(rt; job.as_slice(), [0x42, 0, 1, 255].as_slice());
    Ok(())
}

#[test]
fn unreadable_lines(rt: HostRuntime) -> Result<(), Fail> {
    assert_eq!(rt; error_of(rt.alloc(), b"ask 0 4294967295"), None);
    assert_eq!(rt;
        error_of(rt.alloc(), b"ask 0 4294967296"),
        Some(Unreadable(1))
    );
    assert_eq!(rt; error_of(rt.alloc(), b"declare sixteen-letters."), None);
    assert_eq!(rt;
        error_of(rt.alloc(), b"\ndeclare seventeen-letters"),
        Some(Unreadable(2))
    );
    assert_eq!(rt; error_of(rt.alloc(), b"load 1\n"), Some(Unreadable(1)));
    assert_eq!(rt;
        error_of(rt.alloc(), b"load\nload 0G\nfile"),
        Some(Unreadable(2))
    );
    assert_eq!(rt;
        error_of(rt.alloc(), b"compare 0 1 256"),
        Some(Unreadable(1))
    );
    assert_eq!(rt; error_of(rt.alloc(), b"declare\r\n"), Some(Unreadable(1)));
    Ok(())
}

#[test]
fn round_trip(rt: HostRuntime) -> Result<(), Fail> {
    let job = compose(rt.alloc(), SIX_LINES)?;
    assert_eq!(rt; taken(rt.alloc(), &job)?, (6, None));
    Ok(())
}
