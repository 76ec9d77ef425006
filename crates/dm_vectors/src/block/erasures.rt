//! Tests of correction where some codewords are erased, at the limit and beyond it.

use super::samples::WORD;
use crate::claims::holds;
use dm_code::{BeyondLimit, Elimination, KeySolver, Quick, Restored, correct_erased};

/// What `correct_erased` gives with five check codewords. Each character says of a place whether it is erased: `x`.
fn outcome_of<S: KeySolver>(
    solver: &S,
    word: &[u8; 8],
    marks: &[u8; 8],
) -> Result<Restored, BeyondLimit> {
    let mut erased = [false; 8];
    for place in 0..8 {
        erased[place] = marks[place] == b'x';
    }
    correct_erased(solver, word, 5, &erased)
}

/// A word, its marks, and, where it is restored to the word of the samples, the counts of changed and erased places,
/// and of checks left. None where it is refused.
type Row = ([u8; 8], &'static [u8; 8], Option<(u8, u8, u8)>);

/// Whether both solvers restore the word so, or refuse it.
fn is_so(row: &Row) -> bool {
    let (word, marks, counts) = row;
    let outcome = outcome_of(&Quick, word, marks);
    outcome == outcome_of(&Elimination, word, marks)
        && match outcome {
            Ok(it) => it.word.as_slice() == WORD.as_slice()
                && *counts == Some((it.changed, it.erased, it.left)),
            Err(BeyondLimit) => counts.is_none(),
        }
}

static ERASED: [Row; 5] = [
    ([0, 0, 0, 0, 0, 5, 88, 102], b"xxxxx---", Some((0, 5, 0))),
    ([9, 164, 9, 114, 9, 5, 9, 9], b"x-x-x-xx", Some((0, 5, 0))),
    (WORD, b"----xxxx", Some((0, 4, 1))),
    (WORD, b"--------", Some((0, 0, 5))),
    (WORD, b"xxxxxx--", None),
];

#[test]
fn five_checks_restore_five_erased_codewords(rt: HostRuntime) {
    for row in &ERASED {
        holds(&rt, is_so(row));
    }
}

static WRONG_AND_ERASED: [Row; 6] = [
    (
        [0, 0, 186, 114, 25, 5, 88, 102],
        b"--------",
        Some((2, 0, 1)),
    ),
    (
        [0, 0, 186, 114, 25, 5, 88, 102],
        b"x-------",
        Some((1, 1, 2)),
    ),
    ([0, 0, 0, 114, 25, 5, 88, 102], b"x-------", Some((2, 1, 0))),
    ([0, 0, 0, 0, 25, 5, 88, 102], b"xxx-----", Some((1, 3, 0))),
    ([0, 0, 0, 0, 25, 5, 88, 102], b"xx------", None),
    ([0, 0, 186, 114, 25, 5, 88, 102], b"--xxxx--", None),
];

#[test]
fn an_error_uses_two_checks_and_an_erasure_one(rt: HostRuntime) {
    for row in &WRONG_AND_ERASED {
        holds(&rt, is_so(row));
    }
}
