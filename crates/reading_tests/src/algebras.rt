// The combiners as rows of codes, a row for each first effect, and the questions.
use effects::{CodeTable, FourEffect, SixEffect, cell, effect_tables, question_tables};
use std::process::Abort;

// Compares a table's first rows and columns with rows of codes.
fn same_rows<const N: usize>(rt: &impl Abort, table: &CodeTable, rows: &[[u8; N]; N]) {
    for (first, row) in (0u8..).zip(rows) {
        for (second, code) in (0u8..).zip(row) {
            assert_eq!(rt; cell(&table.cells, first, second), *code);
        }
    }
}

#[test]
fn four_combiners(rt: HostRuntime) {
    let tables = effect_tables::<FourEffect>();
    assert_eq!(rt; tables.combiner_count, 4);
    let [deny_overrides, permit_overrides, first_applicable, only_one] = tables.combine;
    same_rows(
        &rt,
        &deny_overrides,
        &[[0, 1, 2, 3], [1, 1, 2, 3], [2, 2, 2, 3], [3, 3, 3, 3]],
    );
    same_rows(
        &rt,
        &permit_overrides,
        &[[0, 1, 2, 3], [1, 1, 1, 3], [2, 1, 2, 3], [3, 3, 3, 3]],
    );
    same_rows(
        &rt,
        &first_applicable,
        &[[0, 1, 2, 3], [1, 1, 1, 1], [2, 2, 2, 2], [3, 3, 3, 3]],
    );
    same_rows(
        &rt,
        &only_one,
        &[[0, 1, 2, 3], [1, 3, 3, 3], [2, 3, 3, 3], [3, 3, 3, 3]],
    );
}

// Beyond the codes NOT, OR, FAIL's rows and a combiner's table are 0, and so is all of a combiner that is lacking.
#[test]
fn unreached_cells(rt: HostRuntime) {
    let tables = effect_tables::<SixEffect>();
    let [deny_overrides, _, _, lacking] = tables.combine;
    assert_eq!(rt; lacking.cells, [0; 256]);
    assert_eq!(rt; cell(&deny_overrides.cells, 6, 1), 0);
    assert_eq!(rt; cell(&tables.fail.cells, 6, 1), 0);
    assert_eq!(rt; cell(&tables.fail.cells, 9, 0), 0);
    assert_eq!(rt; cell(&tables.negation.cells, 0, 1), 0);
    assert_eq!(rt; cell(&tables.either.cells, 1, 2), 0);
}

#[test]
fn six_combiners(rt: HostRuntime) {
    let tables = effect_tables::<SixEffect>();
    assert_eq!(rt; tables.combiner_count, 3);
    let [deny_overrides, permit_overrides, first_applicable, _] = tables.combine;
    same_rows(
        &rt,
        &deny_overrides,
        &[
            [0, 1, 2, 3, 4, 5],
            [1, 1, 2, 5, 1, 5],
            [2, 2, 2, 2, 2, 2],
            [3, 5, 2, 3, 5, 5],
            [4, 1, 2, 5, 4, 5],
            [5, 5, 2, 5, 5, 5],
        ],
    );
    same_rows(
        &rt,
        &permit_overrides,
        &[
            [0, 1, 2, 3, 4, 5],
            [1, 1, 1, 1, 1, 1],
            [2, 1, 2, 2, 5, 5],
            [3, 1, 2, 3, 5, 5],
            [4, 1, 5, 5, 4, 5],
            [5, 1, 5, 5, 5, 5],
        ],
    );
    same_rows(
        &rt,
        &first_applicable,
        &[
            [0, 1, 2, 3, 4, 5],
            [1, 1, 1, 1, 1, 1],
            [2, 2, 2, 2, 2, 2],
            [3, 3, 3, 3, 3, 3],
            [4, 4, 4, 4, 4, 4],
            [5, 5, 5, 5, 5, 5],
        ],
    );
}

// SCOPE and FAIL at each code, where the condition is false and where it is true.
#[test]
fn scope_and_fail(rt: HostRuntime) {
    let four = effect_tables::<FourEffect>();
    let six = effect_tables::<SixEffect>();
    for (code, stated) in (0u8..4).zip(four.statable) {
        assert_eq!(rt; cell(&four.scope.cells, code, 0), 0);
        assert_eq!(rt; cell(&four.scope.cells, code, 1), code);
        assert_eq!(rt; cell(&four.fail.cells, code, 0), code);
        assert_eq!(rt; cell(&four.fail.cells, code, 1), 3);
        assert_eq!(rt; stated, code == 1 || code == 2);
    }
    let failed = [0, 4, 3, 3, 4, 5];
    for ((code, stated), failed) in (0u8..6).zip(six.statable).zip(failed) {
        assert_eq!(rt; cell(&six.scope.cells, code, 0), 0);
        assert_eq!(rt; cell(&six.fail.cells, code, 0), code);
        assert_eq!(rt; cell(&six.fail.cells, code, 1), failed);
        assert_eq!(rt; stated, code == 1 || code == 2);
    }
}

// Permit, Deny and the rest against each other, under the questions 0 to 5.
#[test]
fn questions(rt: HostRuntime) {
    let tables = question_tables::<FourEffect>();
    let breaks = tables.breaks;
    assert_eq!(rt; tables.count, 6);
    for first in 0..4usize {
        for second in 0..4usize {
            let at = first * 16 + second;
            assert_eq!(rt; breaks[0][at], first != second);
            assert_eq!(rt; breaks[1][at], first == 1 && second != 1);
            assert_eq!(rt; breaks[2][at], first == 2 && second != 2);
            assert_eq!(rt; breaks[3][at], second == 1 && first != 1);
            assert_eq!(rt;
                breaks[4][at],
                (first == 1 || first == 2) && second != first
            );
            assert_eq!(rt;
                breaks[5][at],
                (first == 1 && second == 2) || (first == 2 && second == 1)
            );
        }
    }
    assert_eq!(rt; question_tables::<SixEffect>().count, 6);
}
