//! Tables of codewords, written as text: a line for each row.

use super::wide::content_in;
use super::*;

/// A row as far as its line was looked at: codewords, each with a blank behind it, then `=` and the bytes that they
/// spell.
#[derive(Drop)]
struct Row {
    words: Codewords,
    number: u8,
    has_bytes: bool,
    bytes: ArrayVec<u8, 64>,
}

/// The row of a line before its first character.
fn no_row() -> Row {
    Row {
        words: Codewords::new(),
        number: 0,
        has_bytes: false,
        bytes: ArrayVec::new(),
    }
}

/// Takes the next character of the line.
fn take(row: &mut Row, character: u8) {
    if row.has_bytes {
        let _room = row.bytes.try_push(character);
    } else if character == b'=' {
        row.has_bytes = true;
    } else if character == b' ' {
        let _room = row.words.try_push(row.number);
        row.number = 0;
    } else {
        row.number = row
            .number
            .wrapping_mul(10)
            .wrapping_add(character.wrapping_sub(b'0'));
    }
}

/// Whether the row is whole, and its codewords spell its bytes in the extent.
fn is_spelled(row: &Row, extent: Extent) -> bool {
    row.has_bytes
        && match extent {
            Extent::Usual => match message(&row.words) {
                Ok(message) => are_bytes(message.items(), &row.bytes),
                Err(_) => false,
            },
            Extent::Wide => match content_in(Extent::Wide, &row.words) {
                Ok(content) => are_bytes(content.items(), &row.bytes),
                Err(_) => false,
            },
        }
}

/// Whether the codewords of each line, at the end of which a newline stands, spell its bytes in the extent.
pub(super) fn are_spelled(extent: Extent, lines: &[u8]) -> bool {
    let mut row = no_row();
    for character in lines {
        if *character != b'\n' {
            take(&mut row, *character);
        } else if is_spelled(&row, extent) {
            row = no_row();
        } else {
            return false;
        }
    }
    !row.has_bytes
}
