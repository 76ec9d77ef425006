//! Runs that write grids of messages.

use super::super::memory::Taken;
use super::super::worked::{LETTER, lines};
use super::profiles::is_too_long;
use super::{answers, ended, has_side, joined, push, writes, written_for};
use crate::claims::holds;
use dm_layout::MOST_GRID_DATA;
use dm_symbol::{MOST_ITEMS, Profile};
use dm_text::Task;

/// Whether the line has this answer, with its LF and without. An empty line without its LF is none.
fn is_written(line: &[u8], answer: &[u8]) -> bool {
    let write = Task::Write(Profile::Ascii);
    answers(write, &ended(line), answer) && (line.is_empty() || answers(write, line, answer))
}

#[test]
fn lines_are_written(rt: HostRuntime) {
    for (line, answer) in lines() {
        holds(&rt, is_written(line, answer));
    }
}

/// Whether all lines, one after another, have their answers.
fn are_written_in_order() -> bool {
    let mut text = Taken::new();
    let mut written = Taken::new();
    for (line, answer) in lines() {
        push(&mut text, line);
        push(&mut text, b"\n");
        push(&mut written, answer);
    }
    writes((Task::Write(Profile::Ascii), &text, &written, 6, 4))
}

#[test]
fn lines_are_written_in_order(rt: HostRuntime) {
    holds(&rt, are_written_in_order());
}

#[test]
fn a_refused_line_is_followed_by_the_next(rt: HostRuntime) {
    let written = joined(&[b"\\no 15 escape 1\n\n", LETTER]);
    holds(
        &rt,
        writes((Task::Write(Profile::Ascii), b"\\q\nA\n", &written, 1, 1)),
    );
}

#[test]
fn messages_are_read_back(rt: HostRuntime) {
    let text = b"\\\\\n\\F\n\\x7e\n\\F01\n0\\F1\n123\n\\xff\n\n123456\nA";
    let grids = written_for(Task::Write(Profile::Ascii), text);
    let lines = b"\\\\\n\\F\n~\n\\F01\n0\\F1\n123\n\\xFF\n\n123456\nA\n";
    holds(&rt, writes((Task::Read(None), &grids, lines, 10, 0)));
}

/// Whether the line of digits is written as a grid of this side, which is read as the line, is checked so, and is
/// normal.
fn is_grid_of(digits: &[u8], side: usize, checked: &[u8]) -> bool {
    let grid = written_for(Task::Write(Profile::Ascii), digits);
    has_side(&grid, side)
        && answers(Task::Read(None), &grid, &ended(digits))
        && answers(Task::Check(None), &grid, checked)
        && answers(Task::Normal(None, Profile::Ascii), &grid, &grid)
}

/// How many digits there are, the side of their grid, and how it is checked.
static DIGITS: [(usize, usize, &[u8]); 3] = [
    (408, 52, b"ok 52 border 0 corrected 0 0\n"),
    (409, 64, b"ok 64 border 0 corrected 0 0\n"),
    (1632, 104, b"ok 104 border 0 corrected 0 0 0 0 0 0\n"),
];

#[test]
fn the_largest_messages_are_written(rt: HostRuntime) {
    let digits = [b'7'; 1632];
    for (count, side, checked) in &DIGITS {
        holds(
            &rt,
            is_grid_of(digits.get(..*count).unwrap_or(b""), *side, checked),
        );
    }
}

#[test]
fn longer_messages_are_refused(rt: HostRuntime) {
    let write = Task::Write(Profile::Ascii);
    holds(
        &rt,
        is_too_long(write, &[b'7'; MOST_ITEMS + 1])
            && is_too_long(write, &[b'A'; MOST_GRID_DATA + 1]),
    );
}
