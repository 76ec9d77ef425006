//! What isn't read: marks that are none, or too far gone, and texts that hold no grids.

use crate::chance::Chance;
use crate::digest::Digest;
use crate::failure::Failure;
use crate::jobs::limit::{Places, spoil_second_codewords};
use crate::library::{Caller, SQUARE, exact};
use crate::page::{add_line, answers, behind, side_at};
use crate::texts::{Text, digits, scanned, serial};
use dm_text::{Profile, Task};
use std::alloc::Global;

/// How many symbols of each kind a round has.
const SYMBOLS: usize = 6;

/// How many records a round has.
const RECORDS: usize = 30;

/// Reads a round's symbols and records.
pub(crate) fn round(
    alloc: Global,
    caller: &mut Caller,
    middle: &Places,
    chance: &mut Chance,
    digest: &mut Digest,
) -> Result<(), Failure> {
    let mut text = Text::new();
    for _ in 0..SYMBOLS {
        scanned(&mut text, chance);
        caller.write(text.as_slice(), SQUARE, digest);
        spoil_borders(caller, chance);
        caller.read(digest);
        caller.renew();
        make_noise(caller, chance);
        caller.read(digest);
        make_noise(caller, chance);
        caller.read(digest);
        caller.renew();
        caller.read_doubtful(digest);
    }
    digits(&mut text, 18, chance);
    caller.write(text.as_slice(), exact(8, 32), digest);
    caller.read_doubtful(digest);
    serial(&mut text, 180, chance);
    caller.write(text.as_slice(), exact(52, 52), digest);
    // Of the second of the two blocks, one codeword more than can be corrected.
    let from = chance.below(120) as u16;
    spoil_second_codewords(caller, middle, from, from + 44);
    caller.read(digest);
    read_records(alloc, chance, digest)
}

/// Turns half of the modules of the uppermost row and of the leftmost column, by chance.
fn spoil_borders(caller: &mut Caller, chance: &mut Chance) {
    for line in 0..caller.rows().min(caller.columns()) {
        if chance.happens(50) {
            caller.turn(0, line);
        }
        if chance.happens(50) {
            caller.turn(line, 0);
        }
    }
}

/// Turns many modules by chance that lie in no border, in squares of up to 52 rows.
fn make_noise(caller: &mut Caller, chance: &mut Chance) {
    let side = caller.rows().max(1);
    let region = if side < 32 { side } else { side / 2 };
    for _ in 0..3 * u32::from(side) {
        let row = chance.below(u32::from(side)) as u16;
        let column = chance.below(u32::from(side)) as u16;
        if is_inner(row, region) && is_inner(column, region) {
            caller.turn(row, column);
        }
    }
}

/// Whether a row or column isn't the first or last of a region with so many.
fn is_inner(line: u16, region: u16) -> bool {
    region > 0 && line % region != 0 && line % region != region - 1
}

/// Reads records that are none, or cut off, or have other characters in them.
fn read_records(alloc: Global, chance: &mut Chance, digest: &mut Digest) -> Result<(), Failure> {
    let mut lines = Vec::new(alloc);
    let mut said = Text::new();
    for _ in 0..RECORDS {
        scanned(&mut said, chance);
        add_line(&mut lines, &said)?;
    }
    let mut text = answers(
        Task::Write(Profile::Ascii),
        lines.as_slice(),
        Vec::new(alloc),
        digest,
    )?;
    let mut start = 0;
    for _ in 0..RECORDS {
        let side = side_at(text.as_slice(), start);
        spoil_record(text.as_mut_slice(), start, side, chance);
        start = behind(start, side);
    }
    let refused = answers(Task::Read(None), text.as_slice(), Vec::new(alloc), digest)?;
    digest.add_bytes(refused.as_slice());
    Ok(())
}

/// Puts into a record a CR before each LF, a character that is no cell, a line that is too long, or one that is cut
/// off.
fn spoil_record(text: &mut [u8], start: usize, side: usize, chance: &mut Chance) {
    let line = side.saturating_add(1);
    let row = start.saturating_add(chance.place(side).saturating_mul(line));
    let end = row.saturating_add(side);
    match chance.below(4) {
        0 => put_returns(text, start, side),
        1 => put(text, row.saturating_add(chance.place(side)), b'2'),
        2 => put(text, end, b'1'),
        _ => put(text, row.saturating_add(chance.place(side)), b'\n'),
    }
}

/// Puts a CR before each LF of a record.
fn put_returns(text: &mut [u8], start: usize, side: usize) {
    for row in 0..side {
        let end = start
            .saturating_add(row.saturating_mul(side.saturating_add(1)))
            .saturating_add(side);
        put(text, end.saturating_sub(1), b'\r');
    }
}

/// Puts a byte at a place, if there is one.
fn put(text: &mut [u8], place: usize, byte: u8) {
    if let Some(old) = text.get_mut(place) {
        *old = byte;
    }
}
