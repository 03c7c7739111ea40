// Lists of calls.
use crate::support::*;
use effects::FourEffect;
use shelf::{Answer, Call, run};
use std::process::Abort;

// Wants the answers of a log, one by one.
fn logs(rt: &impl Abort, log: &[Answer], wanted: &[Said]) {
    assert_eq!(rt; log.len(), wanted.len());
    for (n, (answer, said)) in log.iter().zip(wanted).enumerate() {
        assert_eq!(rt; Said::from(*answer), *said, "answer {n}");
    }
}

#[test]
fn every_call(rt: HostRuntime) {
    let calls = [
        Call::Declare(STUDENT),
        Call::Declare(FACULTY),
        Call::Find(FACULTY),
        Call::Find(ASSIGN),
        Call::Load(&TAPE_A),
        Call::Open,
        Call::Feed(draft(7, 0), &[0x10, 2]),
        Call::Feed(draft(7, 0), &[0x1F]),
        Call::File(draft(7, 0)),
        Call::Open,
        Call::Abandon(draft(7, 1)),
        Call::Ask(0, 2),
        Call::Shape(1),
        Call::Compare(0, 1, 0),
        Call::Compare(1, 1, 0),
        Call::Held,
        Call::Ask(2, 0),
        Call::Load(&TAPE_E),
    ];
    let mut nodes = [OLD_NODE; 4];
    let mut names = [OLD_NAME; 3];
    let mut scratch = [OLD_PAIR; 2];
    let mut log = [Answer::Unknown; 18];
    let n = run::<FourEffect>(7, &mut nodes, &mut names, &calls, &mut scratch, &mut log);
    assert_eq!(rt; n, 18);
    assert!(rt; are_blank(&scratch));
    logs(
        &rt,
        &log,
        &[
            Said::Fact(0),
            Said::Fact(1),
            Said::Fact(1),
            Said::Unknown,
            Said::Loaded(0, 1),
            Said::Opened(draft(7, 0)),
            Said::Took(2),
            Said::Took(1),
            Said::Filed(1),
            Said::Opened(draft(7, 1)),
            Said::Abandoned,
            Said::Code(1),
            Said::Shaped(2),
            Said::Witness(0),
            Said::Kept,
            Said::Holding(1),
            Said::Refused(50),
            Said::RefusedAt(32, 5),
        ],
    );
}

// As many calls are run as the log has room for.
#[test]
fn a_short_log(rt: HostRuntime) {
    let calls = [
        Call::Load(&PERMIT),
        Call::Ask(0, 0),
        Call::Held,
        Call::Shape(9),
    ];
    let mut nodes = [OLD_NODE; 1];
    let mut names = [OLD_NAME; 1];
    let mut scratch = [OLD_PAIR; 2];
    let mut log = [Answer::Fact(9); 2];
    let n = run::<FourEffect>(7, &mut nodes, &mut names, &calls, &mut scratch, &mut log);
    assert_eq!(rt; n, 2);
    assert!(rt; are_blank(&scratch));
    logs(&rt, &log, &[Said::Loaded(0, 0), Said::Code(1)]);
}

// What a log has beyond the calls is left as it was.
#[test]
fn a_long_log(rt: HostRuntime) {
    let calls = [Call::Load(&PERMIT)];
    let mut nodes = [OLD_NODE; 1];
    let mut names = [OLD_NAME; 1];
    let mut scratch = [OLD_PAIR; 2];
    let mut log = [Answer::Fact(9); 3];
    let n = run::<FourEffect>(7, &mut nodes, &mut names, &calls, &mut scratch, &mut log);
    assert_eq!(rt; n, 1);
    assert!(rt; are_blank(&scratch));
    logs(
        &rt,
        &log,
        &[Said::Loaded(0, 0), Said::Fact(9), Said::Fact(9)],
    );
}

// The scratch is left blank where no call used it.
#[test]
fn an_empty_log(rt: HostRuntime) {
    let calls = [Call::Load(&PERMIT)];
    let mut nodes = [OLD_NODE; 1];
    let mut names = [OLD_NAME; 1];
    let mut scratch = [OLD_PAIR; 3];
    let mut log = [Answer::Fact(9); 0];
    let n = run::<FourEffect>(7, &mut nodes, &mut names, &calls, &mut scratch, &mut log);
    assert_eq!(rt; n, 0);
    assert!(rt; are_blank(&scratch));
}
