// What becomes of the inputs of the tabulating program.
use std::test::Fail;
use tabulation::{BadInput, EffectSet, Input, TabulateError, tabulate};

// Why an input is none.
fn bad(bytes: &[u8]) -> Option<BadInput> {
    Input::parse(bytes).err()
}

#[test]
fn unreadable(rt: HostRuntime) {
    let longest = [4u8; 65537];
    let too_long = [4u8; 65538];
    assert_eq!(rt; bad(&[]), Some(BadInput::Short));
    assert_eq!(rt; bad(&[16]), Some(BadInput::Short));
    assert_eq!(rt; bad(&[17, 4]), Some(BadInput::Facts));
    assert_eq!(rt; bad(&[16, 5]), Some(BadInput::Effects));
    assert_eq!(rt; bad(&[255, 5]), Some(BadInput::Facts));
    assert_eq!(rt; bad(&[16, 4]), None);
    assert_eq!(rt; bad(&[0, 6]), None);
    assert_eq!(rt; bad(&longest), None);
    assert_eq!(rt; bad(&too_long), Some(BadInput::Long));
}

#[test]
fn in_request_order(rt: HostRuntime) -> Result<(), Fail> {
    let table = tabulate(rt.alloc(), &[3, 4, 0x10, 1, 0x01, 1, 0x11, 0x1F])?;
    assert_eq!(rt; table.effects, EffectSet::Four);
    assert_eq!(rt; table.rows.len(), 8);
    for (row, mask) in table.rows.iter().zip([0, 4, 2, 6, 1, 5, 3, 7]) {
        assert_eq!(rt; row.mask, mask);
        assert_eq!(rt; row.code, (mask / 2 % 2) as u8);
    }
    assert_eq!(rt; table.count_of(0), 4);
    assert_eq!(rt; table.count_of(1), 4);
    assert_eq!(rt; table.count_of(2), 0);
    Ok(())
}

#[test]
fn refused(rt: HostRuntime) -> Result<(), Fail> {
    let Err(TabulateError::Refused(at)) = tabulate(rt.alloc(), &[2, 6, 0x10, 1, 0x13, 3]) else {
        return Err(Fail::new("not refused"));
    };
    assert_eq!(rt; at.refusal.number(), 34);
    assert_eq!(rt; at.place, 2);
    Ok(())
}

#[test]
fn no_input(rt: HostRuntime) {
    assert_eq!(rt;
        tabulate(rt.alloc(), &[17, 4]).err(),
        Some(TabulateError::Unreadable(BadInput::Facts))
    );
}
