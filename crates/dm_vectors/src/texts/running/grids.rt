//! Runs that read, check and normalise grids.

use super::super::feeds::TWO_GRIDS;
use super::super::memory::Taken;
use super::super::worked::{AIM, DIGITS, LARGE, LETTER, RAISED, Worked, grids};
use super::profiles::line_of;
use super::{answers, ended, has_side, joined, push, writes, written_for};
use crate::claims::holds;
use dm_symbol::{LARGEST_SIDE, Profile};
use dm_text::Task;

/// Appends a row of so many modules: the leftmost one is the highest bit; 1 is dark.
fn push_row(text: &mut Taken, row: u128, count: usize) {
    for column in (0..count).rev() {
        let is_dark = column < 128 && (row >> column) % 2 == 1;
        push(text, if is_dark { b"1" } else { b"0" });
    }
    push(text, b"\n");
}

/// Appends the record of rows of modules, from the top, without an empty line after it. There are as many modules in a
/// row as rows.
fn push_record(text: &mut Taken, rows: &[u128]) {
    for row in rows {
        push_row(text, *row, rows.len());
    }
}

/// The record of rows of modules.
pub(super) fn record_of(rows: &[u128]) -> Taken {
    let mut text = Taken::new();
    push_record(&mut text, rows);
    text
}

/// Grids, and what is read from them. All their codewords are right.
static MORE_GRIDS: [(&[u128], &[u8]); 6] = [
    // Data codewords 239, 91 and 11.
    (
        &[
            0x2aa, 0x2b1, 0x2ec, 0x2f7, 0x32c, 0x3f7, 0x3b0, 0x295, 0x29e, 0x3ff,
        ],
        b"aim",
    ),
    // Data codewords 230, 91, 11, 91, 11, 91, 11 and 66.
    (
        &[
            0x2aaa, 0x2b69, 0x2c64, 0x2ca3, 0x25cc, 0x26d1, 0x262a, 0x2e07, 0x3f3c, 0x2fc7, 0x2894,
            0x2681, 0x2b14, 0x3fff,
        ],
        b"AIMAIMAIMA",
    ),
    // Data codewords 230, 90 and 241.
    (
        &[
            0x2aa, 0x29d, 0x2ea, 0x297, 0x2e4, 0x287, 0x3ce, 0x3ef, 0x36a, 0x3ff,
        ],
        b"AI",
    ),
    // Data codewords 230, 91, 11, 254 and 66.
    (
        &[
            0xaaa, 0xaff, 0xb74, 0xb07, 0xa4a, 0x99b, 0xa92, 0xe85, 0xb08, 0x96d, 0x9f2, 0xfff,
        ],
        b"AIMA",
    ),
    // Data codewords 230, 250 and 0.
    (
        &[
            0x2aa, 0x38f, 0x3fc, 0x2b7, 0x244, 0x257, 0x294, 0x30b, 0x20a, 0x3ff,
        ],
        b"ZZZ",
    ),
    // Data codewords 230, 0 and 0.
    (
        &[
            0x2aa, 0x20d, 0x21c, 0x217, 0x254, 0x257, 0x3de, 0x21d, 0x302, 0x3ff,
        ],
        b"\\no 10 triplet 2",
    ),
];

/// Whether the two records, with empty lines around them or without, are read, checked and normalised as these lines
/// and grids.
fn are_answered(text: &[u8], normal: &[u8]) -> bool {
    let lines = b"123456\nA\n".as_slice();
    let checked = b"ok 10 border 0 corrected 0\nok 10 border 0 corrected 0\n".as_slice();
    writes((Task::Read(None), text, lines, 2, 0))
        && writes((Task::Check(None), text, checked, 2, 0))
        && writes((Task::Normal(None, Profile::Ascii), text, normal, 2, 0))
}

#[test]
fn two_records_are_read(rt: HostRuntime) {
    let text = joined(&[b"\n\n\n", TWO_GRIDS, b"\n\n"]);
    let normal = joined(&[DIGITS, LETTER]);
    holds(
        &rt,
        are_answered(TWO_GRIDS, &normal) && are_answered(&text, &normal),
    );
}

#[test]
fn a_record_is_read_without_its_last_line_feed(rt: HostRuntime) {
    holds(
        &rt,
        answers(Task::Read(None), &TWO_GRIDS[..109], b"123456\n"),
    );
    holds(&rt, answers(Task::Read(None), &TWO_GRIDS[110..221], b"A\n"));
}

/// Whether the grid is read and checked as its row says.
fn is_read_and_checked(worked: &Worked) -> bool {
    let record = record_of(worked.0);
    answers(Task::Read(None), &record, worked.1) && answers(Task::Check(None), &record, worked.2)
}

#[test]
fn grids_are_read_and_checked(rt: HostRuntime) {
    for worked in grids() {
        holds(&rt, is_read_and_checked(worked));
    }
}

/// Whether all grids, one after another, are read and checked as their rows say.
fn are_read_and_checked_in_order() -> bool {
    let mut text = Taken::new();
    let mut read = Taken::new();
    let mut checked = Taken::new();
    for worked in grids() {
        push_record(&mut text, worked.0);
        push(&mut text, b"\n");
        push(&mut read, worked.1);
        push(&mut checked, worked.2);
    }
    writes((Task::Read(None), &text, &read, 5, 12))
        && writes((Task::Check(None), &text, &checked, 5, 12))
}

#[test]
fn grids_are_read_and_checked_in_order(rt: HostRuntime) {
    holds(&rt, are_read_and_checked_in_order());
}

/// Whether the grid is read as this line, or refused with it. Where it is read, its normal grid is what is written for
/// the line.
fn is_read(rows: &[u128], line: &[u8]) -> bool {
    let record = record_of(rows);
    let normal = written_for(Task::Write(Profile::Ascii), line);
    answers(Task::Read(None), &record, &ended(line))
        && (line.starts_with(b"\\no ")
            || answers(Task::Normal(None, Profile::Ascii), &record, &normal))
}

#[test]
fn runs_of_other_encodations_are_read(rt: HostRuntime) {
    for (rows, line) in &MORE_GRIDS {
        holds(&rt, is_read(rows, line));
    }
}

/// The record of one of the worked grids.
fn worked_record(place: usize) -> Taken {
    match grids().get(place) {
        Some(worked) => record_of(worked.0),
        None => Taken::new(),
    }
}

/// A task with a low limit of wrong border modules and with a high one, and what each writes for a grid that has 10 of
/// them.
static LIMITS: [(Task, Task, &[u8], &[u8]); 3] = [
    (
        Task::Read(Some(2)),
        Task::Read(Some(10)),
        b"\\no 5 border 10\n",
        b"123456\n",
    ),
    (
        Task::Check(Some(2)),
        Task::Check(Some(10)),
        b"\\no 5 border 10\n",
        b"ok 10 border 10 corrected 0\n",
    ),
    (
        Task::Normal(Some(2), Profile::Ascii),
        Task::Normal(Some(10), Profile::Ascii),
        b"\\no 5 border 10\n\n",
        DIGITS,
    ),
];

#[test]
fn as_many_wrong_border_modules_are_accepted_as_the_limit_says(rt: HostRuntime) {
    let record = worked_record(3);
    for (low, high, refusal, answer) in &LIMITS {
        holds(
            &rt,
            answers(*low, &record, refusal) && answers(*high, &record, answer),
        );
    }
}

/// Whether these of the worked grids, one after another, become these normal grids, or are refused so.
fn are_normalised(table: &[(usize, &[u8])]) -> bool {
    let mut text = Taken::new();
    let mut normal = Taken::new();
    for (place, answer) in table {
        push(&mut text, &worked_record(*place));
        push(&mut text, b"\n");
        push(&mut normal, answer);
    }
    writes((Task::Normal(None, Profile::Ascii), &text, &normal, 5, 2))
}

#[test]
fn grids_are_normalised_in_order(rt: HostRuntime) {
    let raised = written_for(Task::Write(Profile::Ascii), b"\\xC1");
    let table = [
        (0, DIGITS),
        (1, b"\\no 6 block 0\n\n".as_slice()),
        (4, AIM),
        (2, b"\\no 7 reserved 1\n\n".as_slice()),
        (5, &raised),
        (6, RAISED),
        (7, RAISED),
    ];
    holds(&rt, are_normalised(&table));
}

#[test]
fn normal_grids_stay(rt: HostRuntime) {
    let task = Task::Normal(None, Profile::Ascii);
    holds(
        &rt,
        answers(task, AIM, AIM) && answers(task, RAISED, RAISED),
    );
}

/// Whether a record that is no grid has this line, whatever is asked of it.
fn is_refused(record: &[u8], line: &[u8]) -> bool {
    let text = ended(record);
    answers(Task::Read(None), &text, line)
        && answers(Task::Check(None), &text, line)
        && answers(Task::Normal(None, Profile::Ascii), &text, &ended(line))
}

/// Whether a record that is no grid is refused with this line, and the records after it are read.
fn is_refused_alone(record: &[u8], line: &[u8]) -> bool {
    let text = joined(&[record, b"\n\n", TWO_GRIDS]);
    let lines = joined(&[line, b"123456\nA\n"]);
    is_refused(record, line) && writes((Task::Read(None), &text, &lines, 2, 1))
}

/// As many lines of these characters as there are characters.
fn square(row: &[u8]) -> Taken {
    let mut text = Taken::new();
    for _ in row {
        push(&mut text, row);
        push(&mut text, b"\n");
    }
    text
}

/// Records that are no grids, and their lines.
static NO_GRIDS: [(&[u8], &[u8]); 3] = [
    (b"10x", b"\\no 1 character\n"),
    (b"10\n1", b"\\no 3 shape\n"),
    (b"1010\n0101\n1010\n0101", b"\\no 4 side 4\n"),
];

#[test]
fn records_are_refused_and_the_next_is_read(rt: HostRuntime) {
    for (record, line) in &NO_GRIDS {
        holds(&rt, is_refused_alone(record, line));
    }
}

#[test]
fn large_records_are_refused_and_the_next_is_read(rt: HostRuntime) {
    let zeros = [b'0'; LARGEST_SIDE + 1];
    let side_53 = square(&zeros[..53]);
    let table = [
        (zeros.as_slice(), b"\\no 2 large\n".as_slice()),
        (&zeros[..53], b"\\no 3 shape\n"),
        (&side_53, b"\\no 4 side 53\n"),
    ];
    for (record, line) in table {
        holds(&rt, is_refused_alone(record, line));
    }
}

/// Whether the record is read as the text and becomes this normal grid, of side 80, which is read so too.
fn becomes_larger(record: &[u8], text: &[u8], normal: &[u8]) -> bool {
    has_side(normal, 80)
        && answers(Task::Read(None), record, text)
        && answers(Task::Normal(None, Profile::Ascii), record, normal)
        && answers(Task::Read(None), normal, text)
}

/// A symbol whose data codewords are all one segment of Base 256: its message takes twice the codewords in ASCII.
#[test]
fn a_normal_grid_may_be_larger(rt: HostRuntime) {
    let text = ended(&line_of(b"\\xFF", 202));
    let normal = written_for(Task::Write(Profile::Ascii), &text);
    holds(&rt, becomes_larger(&record_of(&LARGE), &text, &normal));
}
