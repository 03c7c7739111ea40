// Reading leans on nothing but what the interface asks.
use crate::hostile::Odd;
use crate::reading::told;
use effects::{cell, effect_tables, question_tables};
use single_effect::Single;

// What a tape answers under both algebras, or the number of its refusal.
fn both(facts: u8, tape: &[u8], request: u32) -> (Result<u8, u8>, Result<u8, u8>) {
    let number = |(number, _place): (u8, usize)| number;
    (
        told::<Odd>(facts, tape, request).map_err(number),
        told::<Single>(facts, tape, request).map_err(number),
    )
}

#[test]
fn nothing_more_is_used(rt: HostRuntime) {
    // SCOPE by a fact: not applicable is code 2 of the first algebra, and the only code of the second
    assert_eq!(rt; both(1, &[0x10, 0, 0x01, 0, 0x11, 0x1F], 0), (Ok(2), Ok(0)));
    assert_eq!(rt; both(1, &[0x10, 0, 0x01, 0, 0x11, 0x1F], 1), (Ok(0), Ok(0)));
    // a condition is 1 where true though there is one effect only
    assert_eq!(rt;
        both(1, &[0x10, 0, 0x01, 0, 0x04, 0x11, 0x1F], 0),
        (Ok(0), Ok(0))
    );
    // FAIL, JOIN of an effect with itself, and a combiner that one algebra lacks
    assert_eq!(rt;
        both(1, &[0x10, 1, 0x01, 0, 0x12, 0x1F], 1),
        (Ok(0), Err(33))
    );
    assert_eq!(rt;
        both(0, &[0x10, 0, 0x10, 0, 0x13, 0, 0x1F], 0),
        (Ok(1), Err(34))
    );
    assert_eq!(rt; both(0, &[0x10, 2, 0x1F], 0), (Ok(2), Err(33)));
    assert_eq!(rt; both(0, &[0x10, 3, 0x1F], 0), (Err(33), Err(33)));
}

#[test]
fn questions_of_equal_effects(rt: HostRuntime) {
    let asked = question_tables::<Odd>();
    assert!(rt; asked.breaks[0][0]);
    assert!(rt; asked.breaks[0][34]);
    assert_eq!(rt; question_tables::<Single>().count, 0);
    let [only, _, _, _] = effect_tables::<Odd>().combine;
    assert_eq!(rt; cell(&only.cells, 2, 2), 0);
}
