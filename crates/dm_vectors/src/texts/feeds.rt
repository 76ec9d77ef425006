//! Texts of messages, and lines and records in pieces.

use crate::calls::write;
use crate::claims::holds;
use arrayvec::ArrayVec;
use dm_symbol::{Grid, Item, LARGEST_SIDE, MOST_ITEMS, Message};
use dm_text::{
    Fed, GridFeed, LineFault, LineFed, LineFeed, RecordFault, message_from, message_text,
};

/// The message has this text.
fn has_text(message: &Message, text: &[u8]) -> bool {
    message_text(message).as_slice() == text
}

/// The line spells a message of these items, which has this text.
fn spells(row: &(&[u8], &[Item], &[u8])) -> bool {
    match message_from(row.0) {
        Ok(message) => message.items() == row.1 && has_text(&message, row.2),
        Err(_) => false,
    }
}

/// Lines with their items, and the texts of these.
static MESSAGES: [(&[u8], &[Item], &[u8]); 3] = [
    (
        b"\\x41\\F\\xff",
        &[Item::Byte(65), Item::Fnc1, Item::Byte(255)],
        b"A\\F\\xFF",
    ),
    (b"", &[], b""),
    (b"\\xc1", &[Item::Byte(193)], b"\\xC1"),
];

#[test]
fn messages_are_read_from_lines(rt: HostRuntime) {
    for row in &MESSAGES {
        holds(&rt, spells(row));
    }
    holds(&rt, has_text(&Message::new(), b""));
}

/// The line has this fault, or none.
fn has_fault(line: &[u8], fault: Option<LineFault>) -> bool {
    message_from(line).err() == fault
}

/// Lines, and the columns of their faults.
static BAD_ESCAPES: [(&[u8], u64); 6] = [
    (b"\\q", 1),
    (b"ab\\x4", 3),
    (b"\\x41\\q", 5),
    (b"A\\", 2),
    (b"A\tB", 2),
    (b"\\x4\\", 1),
];

#[test]
fn line_faults_have_their_columns(rt: HostRuntime) {
    for (line, column) in &BAD_ESCAPES {
        holds(&rt, has_fault(line, Some(LineFault::BadEscape(*column))));
    }
    let digits = [b'7'; MOST_ITEMS + 1];
    holds(&rt, has_fault(&digits, Some(LineFault::TooLong)));
    holds(&rt, has_fault(&digits[..MOST_ITEMS], None));
}

/// What a line came to: its fault, if it has one, and how many items it has.
type Came = (Option<LineFault>, usize);

/// Feeds a piece, and adds what each line that it closes came to.
fn feed_lines(feed: &mut LineFeed, piece: &[u8], lines: &mut ArrayVec<Came, 8>) {
    let mut rest = piece;
    for _ in 0..4 {
        let LineFed { taken, closed } = feed.feed(rest);
        let Some(line) = closed else {
            return;
        };
        let _room = lines.try_push(match line {
            Ok(message) => (None, message.items().len()),
            Err(fault) => (Some(fault), 0),
        });
        rest = rest.get(taken..).unwrap_or(b"");
    }
}

/// Whether these pieces of a text close a line with a bad escape and an empty line, and leave `A`.
fn lines_are_fed(before: &[u8], after: &[u8]) -> bool {
    let mut feed = LineFeed::new();
    let mut lines = ArrayVec::new();
    feed_lines(&mut feed, before, &mut lines);
    feed_lines(&mut feed, after, &mut lines);
    let ends_in_line = match feed.finish() {
        Some(Ok(message)) => message.items() == [Item::Byte(65)].as_slice(),
        _ => false,
    };
    lines.as_slice() == [(Some(LineFault::BadEscape(1)), 0), (None, 0)].as_slice()
        && ends_in_line
        && feed.finish().is_none()
}

#[test]
fn lines_come_in_pieces(rt: HostRuntime) {
    let text = b"\\q\n\nA";
    for cut in 0..=text.len() {
        holds(&rt, lines_are_fed(&text[..cut], &text[cut..]));
    }
}

/// The symbols of `123456` and `A`, with two empty lines between them.
pub(super) const TWO_GRIDS: &[u8] =
    b"1010101010\n1100101101\n1100000100\n1100011101\n1100001000\n1000001111\n1110110000\n1111011001\n1001110100\n\
      1111111111\n\n\n1010101010\n1101100011\n1000110100\n1001101011\n1001010000\n1001001011\n1101001100\n\
      1100111101\n1100001000\n1111111111\n";

/// The record is the symbol of the line.
fn is_symbol_of(record: Result<Grid, RecordFault>, line: &[u8]) -> bool {
    let Ok(grid) = record else {
        return false;
    };
    let Ok(message) = message_from(line) else {
        return false;
    };
    match write(&message) {
        Ok(symbol) => grid == symbol,
        Err(_) => false,
    }
}

/// Feeds a whole piece, in which at most one record closes, and says how many closed: the symbol of `123456`. The
/// largest number where anything else is found.
fn closed_in(feed: &mut GridFeed, piece: &[u8]) -> u32 {
    let Fed { taken, closed } = feed.feed(piece);
    let is_good = match closed {
        None => return if taken == piece.len() { 0 } else { u32::MAX },
        Some(record) => is_symbol_of(record, b"123456"),
    };
    if is_good && stays_open(feed, piece.get(taken..).unwrap_or(b"")) {
        1
    } else {
        u32::MAX
    }
}

/// The end of the text closes this record: the symbol of `A`. Nothing comes after it.
fn ends_in_second(feed: &mut GridFeed) -> bool {
    let is_good = match feed.finish() {
        Some(record) => is_symbol_of(record, b"A"),
        None => false,
    };
    is_good && feed.finish().is_none()
}

/// The two grids in two pieces, cut here.
fn are_fed(cut: usize) -> bool {
    let (before, after) = TWO_GRIDS.split_at(cut.min(TWO_GRIDS.len()));
    let mut feed = GridFeed::new();
    let first = closed_in(&mut feed, before);
    first.saturating_add(closed_in(&mut feed, after)) == 1 && ends_in_second(&mut feed)
}

#[test]
fn records_come_in_pieces(rt: HostRuntime) {
    for cut in 0..=TWO_GRIDS.len() {
        holds(&rt, are_fed(cut));
    }
}

#[test]
fn records_come_in_bytes(rt: HostRuntime) {
    let mut feed = GridFeed::new();
    let mut closed = 0u32;
    for byte in TWO_GRIDS {
        closed = closed.saturating_add(closed_in(&mut feed, &[*byte]));
    }
    holds(&rt, closed == 1);
    holds(&rt, ends_in_second(&mut feed));
}

/// The piece closes a record with this fault, after so many bytes.
fn closes(feed: &mut GridFeed, piece: &[u8], count: usize, fault: RecordFault) -> bool {
    let Fed { taken, closed } = feed.feed(piece);
    taken == count && is_refused(closed, fault)
}

/// A record was closed, and has this fault.
fn is_refused(closed: Option<Result<Grid, RecordFault>>, fault: RecordFault) -> bool {
    match closed {
        Some(Err(found)) => found == fault,
        _ => false,
    }
}

/// The piece closes no record.
fn stays_open(feed: &mut GridFeed, piece: &[u8]) -> bool {
    feed.feed(piece).closed.is_none()
}

#[test]
fn two_records_come_in_one_piece(rt: HostRuntime) {
    let mut feed = GridFeed::new();
    let piece = b"1\n\n10x\n\n";
    holds(&rt, closes(&mut feed, piece, 3, RecordFault::NoSuchSize(1)));
    holds(
        &rt,
        closes(&mut feed, &piece[3..], 5, RecordFault::Character),
    );
    holds(&rt, feed.finish().is_none());
}

/// The text, whose end closes the only record in it, has this fault.
fn ends_refused(text: &[u8], fault: RecordFault) -> bool {
    let mut feed = GridFeed::new();
    stays_open(&mut feed, text) && is_refused(feed.finish(), fault)
}

/// Records that no empty line ends, and their faults.
static NO_RECORDS: [(&[u8], RecordFault); 4] = [
    (b"10x\n", RecordFault::Character),
    (b"10\n1\n", RecordFault::NotSquare),
    (b"1010\n0101\n1010\n0101\n", RecordFault::NoSuchSize(4)),
    (b"10\n1", RecordFault::NotSquare),
];

#[test]
fn records_are_refused(rt: HostRuntime) {
    for (text, fault) in &NO_RECORDS {
        holds(&rt, ends_refused(text, *fault));
    }
    let zeros = [b'0'; LARGEST_SIDE + 1];
    holds(&rt, ends_refused(&zeros, RecordFault::Large));
    holds(&rt, ends_refused(&zeros[..53], RecordFault::NotSquare));
}

#[test]
fn a_record_that_is_too_long_is_refused_and_left(rt: HostRuntime) {
    let mut feed = GridFeed::new();
    for _ in 0..1_000_000u32 {
        holds(&rt, stays_open(&mut feed, b"2\n"));
    }
    holds(&rt, closes(&mut feed, b"\n", 1, RecordFault::Character));
    holds(&rt, closed_in(&mut feed, TWO_GRIDS) == 1);
}
