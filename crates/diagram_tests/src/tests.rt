// What diagrams do on examples.
ghost use Rattle.std.specs.Prelude.{◌≤◌};

use diagram::{Full, Store};
use effects::{EffectTables, FourEffect, effect_tables, question_tables};
use probing::Slot;
use probing::node::Node;
use probing::pair::Pair;
use std::test::Fail;
use tape::{RefusedAt, Rules, Stack};

// Slots with left-overs in them.
const JUNK: Slot<Node> = Slot {
    key: Node {
        fact: 7,
        low: 7,
        high: 9,
    },
    serial: 9,
};

const USED: Slot<Pair> = Slot {
    key: Pair {
        first: 16,
        second: 1,
    },
    serial: 1,
};

// Runs a whole tape over a store: the top entry then.
fn load(store: &mut Store, tables: &EffectTables, facts: u8, tape: &[u8]) -> Result<u16, RefusedAt>
    requires { facts ≤ 32 }
{
    let mut stack = Stack::empty(0u16);
    Rules { tables, facts }.read_all(store, &mut stack, tape)?;
    Ok(stack.top(0))
}

#[test]
fn grows_by_cofactors(rt: HostRuntime) -> Result<(), Fail> {
    let mut slots = [JUNK; 4];
    let tables = effect_tables::<FourEffect>();
    let mut store = Store::new(&mut slots);
    assert_eq!(rt; store.held(), 0);
    let first = store.fact(0)?;
    assert_eq!(rt; store.held(), 1);
    let second = store.fact(1)?;
    assert_eq!(rt; store.held(), 2);
    let either = store.apply(&tables.either, first, second)?;
    assert_eq!(rt; store.held(), 3);
    assert_eq!(rt; store.apply(&tables.either, second, first)?, either);
    assert_eq!(rt; store.held(), 3);
    Ok(())
}

#[test]
fn shares_a_node(rt: HostRuntime) -> Result<(), Fail> {
    let mut slots = [JUNK; 4];
    let tables = effect_tables::<FourEffect>();
    let mut store = Store::new(&mut slots);
    let rules = Rules {
        tables: &tables,
        facts: 2,
    };
    // command by command, and with no END
    let mut stack = Stack::empty(0u16);
    for command in [&[0x10u8, 1][..], &[0x01, 1], &[0x11]] {
        assert_eq!(rt; rules.step(&mut store, &mut stack, command)?, command.len());
    }
    let policy = stack.top(0);
    assert_eq!(rt; store.held(), 1);
    assert_eq!(rt; store.evaluate(policy, 2), 1);
    assert_eq!(rt; store.evaluate(policy, 1), 0);
    Ok(())
}

#[test]
fn masks_hold_their_cofactors(rt: HostRuntime) -> Result<(), Fail> {
    let mut slots = [JUNK; 4];
    let mut store = Store::new(&mut slots);
    let any = store.any(3)?;
    assert_eq!(rt; store.held(), 2);
    assert_eq!(rt; store.evaluate(any, 2), 1);
    assert_eq!(rt; store.evaluate(any, 4), 0);
    store.roll_back(0);
    let all = store.all(7)?;
    assert_eq!(rt; store.held(), 3);
    assert_eq!(rt; store.evaluate(all, 7), 1);
    assert_eq!(rt; store.evaluate(all, 5), 0);
    Ok(())
}

#[test]
fn no_slots_take_constants(rt: HostRuntime) -> Result<(), Fail> {
    let mut slots = [JUNK; 0];
    let tables = effect_tables::<FourEffect>();
    let mut store = Store::new(&mut slots);
    let permit = store.constant(1);
    assert_eq!(rt;
        store.apply(&tables.scope, permit, store.constant(1))?,
        permit
    );
    assert_eq!(rt; store.all(0)?, store.constant(1));
    assert_eq!(rt; store.fact(0), Err(Full));
    assert_eq!(rt; store.held(), 0);
    Ok(())
}

#[test]
fn refused_as_it_was(rt: HostRuntime) -> Result<(), Fail> {
    let mut slots = [JUNK; 2];
    let tables = effect_tables::<FourEffect>();
    let mut store = Store::new(&mut slots);
    let first = store.fact(0)?;
    let second = store.fact(1)?;
    assert_eq!(rt; store.apply(&tables.either, first, second), Err(Full));
    assert_eq!(rt; store.any(6), Err(Full));
    assert_eq!(rt; store.held(), 2);
    assert_eq!(rt; store.fact(1)?, second);
    assert_eq!(rt; store.apply(&tables.both, first, first)?, first);
    Ok(())
}

#[test]
fn rolls_back(rt: HostRuntime) -> Result<(), Fail> {
    let mut slots = [JUNK; 3];
    let mut store = Store::new(&mut slots);
    let first = store.fact(5)?;
    let before = store.held();
    let any = store.any(6)?;
    assert_eq!(rt; store.held(), 3);
    store.roll_back(before);
    assert_eq!(rt; store.held(), 1);
    assert_eq!(rt; store.fact(5)?, first);
    assert_eq!(rt; store.any(6)?, any);
    Ok(())
}

#[test]
fn first_in_the_order_of_facts(rt: HostRuntime) -> Result<(), Fail> {
    let mut slots = [JUNK; 8];
    let tables = effect_tables::<FourEffect>();
    let permits = question_tables::<FourEffect>().breaks[1];
    let mut store = Store::new(&mut slots);
    let always = store.constant(1);
    let tape = [0x10, 1, 0x02, 6, 0, 0, 0, 0x04, 0x11, 0x1F];
    let guarded = load(&mut store, &tables, 3, &tape)?;
    assert_eq!(rt;
        store.witness(&permits, always, guarded, &mut [USED; 0]),
        Some(4)
    );
    assert_eq!(rt;
        store.witness(&permits, always, guarded, &mut [USED; 2]),
        Some(4)
    );
    assert_eq!(rt;
        store.witness(&permits, guarded, always, &mut [USED; 2]),
        None
    );
    Ok(())
}

#[test]
fn refused_for_want_of_a_slot(rt: HostRuntime) {
    let mut slots = [JUNK; 2];
    let tables = effect_tables::<FourEffect>();
    let mut store = Store::new(&mut slots);
    let tape = [0x01, 0, 0x01, 1, 0x06];
    assert_eq!(rt;
        load(&mut store, &tables, 2, &tape).map_err(|at| (at.refusal.number(), at.place)),
        Err((39, 4))
    );
    assert_eq!(rt; store.held(), 2);
}
