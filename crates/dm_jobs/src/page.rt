//! Texts of lines and of records, made and damaged in memory.

ghost use Rattle.std.specs.Prelude.{◌≤◌};

use crate::cells::{bytes_of, sixteen};
use crate::chance::Chance;
use crate::devices::{PageSink, TextSource};
use crate::digest::Digest;
use crate::failure::Failure;
use crate::texts::{Text, byte_of};
use dm_layout::symbols::{MOST_COLUMNS, Symbol};
use dm_text::{Task, run};

/// The most bytes that a run here reads.
const MOST: u64 = 1 << 30;

/// A line of the most columns, its end, and what is put behind it.
const LINE: usize = MOST_COLUMNS + 16;

const HEXADECIMAL: &[u8; 16] = b"0123456789ABCDEF";

/// Adds a text as a message line.
pub(crate) fn add_line(page: &mut Vec<u8>, text: &Text) -> Result<(), Failure> {
    for item in text.as_slice() {
        match byte_of(*item) {
            None => page.extend_from_slice(b"\\F")?,
            Some(byte) if byte < b' ' || byte > b'~' || byte == b'\\' => {
                let high = HEXADECIMAL[usize::from(byte / 16)];
                let low = HEXADECIMAL[usize::from(byte % 16)];
                page.extend_from_slice(&[b'\\', b'x', high, low])?;
            }
            Some(byte) => page.push(byte)?,
        }
    }
    page.push(b'\n')?;
    Ok(())
}

/// Adds the modules of a square as a record.
pub(crate) fn add_record(page: &mut Vec<u8>, symbol: &Symbol) -> Result<(), Failure> {
    let columns = symbol.size().columns();
    let mut line = [b'\n'; LINE];
    for row in 0..symbol.size().rows() {
        for part in 0..(columns + 15) / 16 {
            put_line(
                sixteen(symbol, row, 16 * part),
                16 * usize::from(part),
                &mut line,
            );
        }
        line[usize::from(columns)] = b'\n';
        page.extend_from_slice(&line[..usize::from(columns) + 1])?;
    }
    page.push(b'\n')?;
    Ok(())
}

/// Puts sixteen modules to a line from a column on, as 0 and 1.
fn put_line(modules: u64, column: usize, line: &mut [u8; LINE])
    requires { column ≤ MOST_COLUMNS }
{
    line[column..column + 8].copy_from_slice(&digits_of(modules));
    line[column + 8..column + 16].copy_from_slice(&digits_of(modules >> 8));
}

/// Gives the lowest eight bits as digits, the lowest first.
fn digits_of(bits: u64) -> [u8; 8] {
    (bytes_of(bits) | 0x3030_3030_3030_3030).to_le_bytes()
}

/// Gives what a task answers to a text.
pub(crate) fn answers(
    task: Task,
    text: &[u8],
    page: Vec<u8>,
    digest: &mut Digest,
) -> Result<Vec<u8>, Failure> {
    let mut sink = PageSink::new(page);
    let tally = run(task, &mut TextSource::new(text), &mut sink, MOST)?;
    digest.tell(tally.answered, tally.refused);
    Ok(sink.page)
}

/// Gives the number of bytes before the first LF from a place on, which is the side of a record that begins there; 0
/// where there is none.
pub(crate) fn side_at(text: &[u8], start: usize) -> usize {
    let rest = text.get(start..).unwrap_or(b"");
    rest.iter().position(|byte| *byte == b'\n').unwrap_or(0)
}

/// Turns the colour of a cell of the record that begins at a place of a text, if this is a cell.
pub(crate) fn turn(text: &mut [u8], place: usize) {
    if let Some(byte) = text.get_mut(place) {
        if *byte == b'0' || *byte == b'1' {
            *byte ^= 1;
        }
    }
}

/// Turns the colours of so many cells within the borders of the record that begins at a place, whose side is given.
pub(crate) fn turn_some(
    text: &mut [u8],
    start: usize,
    side: usize,
    count: usize,
    chance: &mut Chance,
) {
    for _ in 0..count {
        let row = 1 + chance.place(side.saturating_sub(2));
        let column = 1 + chance.place(side.saturating_sub(2));
        turn(
            text,
            start
                .saturating_add(row.saturating_mul(side.saturating_add(1)))
                .saturating_add(column),
        );
    }
}

/// Gives the place behind a record of a side and the empty line after it.
pub(crate) fn behind(start: usize, side: usize) -> usize {
    start
        .saturating_add(side.saturating_mul(side.saturating_add(1)))
        .saturating_add(1)
}
