//! Runs that write normal grids under the shorter profile.

use super::super::memory::Taken;
use super::super::worked::{DIGITS, EMPTY, LARGE, LETTER};
use super::grids::record_of;
use super::{answers, ended, has_side, push, written_for};
use crate::claims::holds;
use dm_layout::MOST_GRID_DATA;
use dm_symbol::Profile;
use dm_text::Task;

/// The line of this item so many times.
pub(super) fn line_of(item: &[u8], count: usize) -> Taken {
    let mut line = Taken::new();
    for _ in 0..count {
        push(&mut line, item);
    }
    line
}

/// Whether the grid is read as the line, and is normalised to these two, by the profile.
fn is_form(grid: &[u8], line: &[u8], shorter: &[u8], ascii: &[u8]) -> bool {
    answers(Task::Read(None), grid, line)
        && answers(Task::Normal(None, Profile::Shorter), grid, shorter)
        && answers(Task::Normal(None, Profile::Ascii), grid, ascii)
}

/// Whether a line of so many items is written as grids of these sides under the shorter profile and under ASCII. Each
/// is read as the line, and is normal under its own profile; normalising under the other gives the other.
fn has_sides(row: &(&[u8], usize, usize, usize)) -> bool {
    let line = line_of(row.0, row.1);
    let shorter = written_for(Task::Write(Profile::Shorter), &line);
    let ascii = written_for(Task::Write(Profile::Ascii), &line);
    let read = ended(&line);
    has_side(&shorter, row.2)
        && has_side(&ascii, row.3)
        && is_form(&shorter, &read, &shorter, &ascii)
        && is_form(&ascii, &read, &shorter, &ascii)
}

/// Items, how many of them make a line, and the sides of its grids under the shorter profile and under ASCII.
static SIDES: [(&[u8], usize, usize, usize); 5] = [
    (b"\\x80", 3, 12, 14),
    (b"\\x80", 2, 12, 12),
    (b"\\F\\x80\\x80\\x80\\x80", 1, 16, 16),
    (b"\\xFF", 202, 52, 80),
    (b"\\xFF", 250, 64, 88),
];

#[test]
fn the_shorter_form_has_its_side(rt: HostRuntime) {
    for row in &SIDES {
        holds(&rt, has_sides(row));
    }
}

/// Lines of few bytes, and their grids under the shorter profile.
static FEW_BYTES: [(&[u8], &[u8]); 3] = [(b"123456", DIGITS), (b"A", LETTER), (b"", EMPTY)];

#[test]
fn few_bytes_stay_in_ascii(rt: HostRuntime) {
    for (line, grid) in &FEW_BYTES {
        holds(
            &rt,
            answers(Task::Write(Profile::Shorter), &ended(line), grid),
        );
    }
}

/// Whether the text is too long for the task.
pub(super) fn is_too_long(task: Task, text: &[u8]) -> bool {
    answers(task, text, b"\\no 14 too-long\n\n")
}

/// Whether the line has a grid of this side under the shorter profile, which is its own normal grid there, and none
/// under ASCII.
fn is_only_shorter(line: &[u8], side: usize) -> bool {
    let grid = written_for(Task::Write(Profile::Shorter), line);
    has_side(&grid, side)
        && answers(Task::Normal(None, Profile::Shorter), &grid, &grid)
        && is_too_long(Task::Write(Profile::Ascii), line)
        && is_too_long(Task::Normal(None, Profile::Ascii), &grid)
}

#[test]
fn a_segment_that_fills_side_104_is_written(rt: HostRuntime) {
    holds(&rt, is_only_shorter(&line_of(b"\\xFF", 813), 104));
}

#[test]
fn a_larger_segment_is_refused(rt: HostRuntime) {
    let more = line_of(b"\\xFF", MOST_GRID_DATA - 2);
    holds(
        &rt,
        is_too_long(Task::Write(Profile::Ascii), &more)
            && is_too_long(Task::Write(Profile::Shorter), &more),
    );
}

/// Whether the record is normal under the shorter profile, and comes back from its normal grid of side 80 under ASCII.
fn comes_back(record: &[u8]) -> bool {
    let shorter = Task::Normal(None, Profile::Shorter);
    let normal = ended(record);
    let ascii = written_for(Task::Normal(None, Profile::Ascii), record);
    has_side(&ascii, 80) && answers(shorter, record, &normal) && answers(shorter, &ascii, &normal)
}

/// A symbol whose data codewords are all one segment of Base 256 with its length written out is normal.
#[test]
fn a_segment_is_normal(rt: HostRuntime) {
    holds(&rt, comes_back(&record_of(&LARGE)));
}
