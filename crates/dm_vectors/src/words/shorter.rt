//! The shorter form: one segment of Base 256 where that takes fewer codewords than ASCII.

use super::*;

/// Whether the codewords of so many times one byte in the shorter form are these.
fn is_shorter(row: &(u8, usize, &[u8])) -> bool {
    match shorter_words(&of_many(row.0, row.1)) {
        Ok(words) => words.as_slice() == row.2,
        Err(_) => false,
    }
}

/// A byte, how many of it make a message, and its codewords in the shorter form.
static SHORTER: [(u8, usize, &[u8]); 4] = [
    (128, 3, &[231, 47, 65, 215, 108]),
    (128, 2, &[235, 1, 235, 1]),
    (b'7', 6, &[207, 207, 207]),
    (0, 0, &[]),
];

#[test]
fn the_shorter_of_two_forms_is_written(rt: HostRuntime) {
    for row in &SHORTER {
        holds(&rt, is_shorter(row));
    }
}

#[test]
fn messages_that_fit_no_symbol_are_refused(rt: HostRuntime) {
    holds(
        &rt,
        shorter_words(&of_many(255, MOST_GRID_DATA - 2)).is_err(),
    );
}
