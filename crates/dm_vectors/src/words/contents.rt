//! Contents: heads, items and marks.

use super::wide::content_in;
use super::*;

/// Codewords, and the content that they say: its head, its items, where the byte 232 stands for FNC1, and its marks.
type Row = (
    &'static [u8],
    Option<Head>,
    &'static [u8],
    &'static [(u16, u32)],
);

/// Whether the items are these bytes, of which 232 stands for FNC1.
fn are_said(items: &[Item], bytes: &[u8]) -> bool {
    if items.len() != bytes.len() {
        return false;
    }
    for i in 0..items.len() {
        let item = if bytes[i] == 232 {
            Item::Fnc1
        } else {
            Item::Byte(bytes[i])
        };
        if items[i] != item {
            return false;
        }
    }
    true
}

/// Whether the marks have these places and numbers.
fn are_marks(marks: &[Mark], rows: &[(u16, u32)]) -> bool {
    if marks.len() != rows.len() {
        return false;
    }
    for i in 0..marks.len() {
        let (place, number) = rows[i];
        if marks[i] != (Mark { place, number }) {
            return false;
        }
    }
    true
}

/// Whether the codewords say their content.
fn is_read(row: &Row) -> bool {
    match content_in(Extent::Wide, row.0) {
        Ok(content) => content.head() == row.1
            && are_said(content.items(), row.2)
            && are_marks(content.marks(), row.3),
        Err(_) => false,
    }
}

/// Whether the codewords of each row say its content.
fn are_read(rows: &[Row]) -> bool {
    for row in rows {
        if !is_read(row) {
            return false;
        }
    }
    true
}

/// Whether the codewords of each row are refused with its fault.
fn are_refused(rows: &[(&[u8], ContentFault)]) -> bool {
    for (words, fault) in rows {
        if content_in(Extent::Wide, words).err() != Some(*fault) {
            return false;
        }
    }
    true
}

/// Marks.
static MARKED_ROWS: [Row; 15] = [
    (&[241, 27, 66, 67, 68, 129], None, b"ABC", &[(0, 26)]),
    (&[241, 128, 74, 66, 129], None, b"A", &[(0, 200)]),
    (&[241, 192, 15, 62, 66, 129], None, b"A", &[(0, 20000)]),
    (&[66, 241, 10, 241, 27, 67], None, b"AB", &[(1, 9), (1, 26)]),
    (&[131, 241, 4, 132], None, b"0102", &[(2, 3)]),
    (&[241, 127, 66], None, b"A", &[(0, 126)]),
    (&[241, 128, 1, 66], None, b"A", &[(0, 127)]),
    (&[241, 191, 254, 66], None, b"A", &[(0, 16382)]),
    (&[241, 192, 1, 1, 66], None, b"A", &[(0, 16383)]),
    (&[241, 207, 63, 129], None, b"", &[(0, 999_999)]),
    (&[232, 241, 27, 66], None, b"\xE8A", &[(1, 26)]),
    (&[66, 232, 67], None, b"A\xE8B", &[]),
    (&[240, 241, 4, 39, 192, 67], None, b"<PP'62B", &[]),
    (&[230, 87, 199, 254, 241, 27, 66], None, b"AA", &[(1, 26)]),
    (
        &[236, 241, 27, 66, 129],
        None,
        b"[)>\x1E05\x1DA\x1E\x04",
        &[(7, 26)],
    ),
];

/// Heads, and macros behind empty runs.
static OPENED_ROWS: [Row; 7] = [
    (
        &[233, 28, 1, 2, 66, 129],
        Some(Head::Appended(Appended {
            index: 2,
            count: 5,
            file_high: 1,
            file_low: 2,
        })),
        b"A",
        &[],
    ),
    (
        &[233, 31, 1, 1, 66],
        Some(Head::Appended(Appended {
            index: 2,
            count: 2,
            file_high: 1,
            file_low: 1,
        })),
        b"A",
        &[],
    ),
    (
        &[233, 241, 254, 254, 66],
        Some(Head::Appended(Appended {
            index: 16,
            count: 16,
            file_high: 254,
            file_low: 254,
        })),
        b"A",
        &[],
    ),
    (
        &[233, 15, 1, 1, 232, 66],
        Some(Head::Appended(Appended {
            index: 1,
            count: 2,
            file_high: 1,
            file_low: 1,
        })),
        b"\xE8A",
        &[],
    ),
    (
        &[234, 142, 164, 186, 129],
        Some(Head::Programming),
        b"123456",
        &[],
    ),
    (
        &[230, 254, 237, 66, 67, 129],
        None,
        b"[)>\x1E06\x1DAB\x1E\x04",
        &[],
    ),
    (
        &[230, 254, 238, 254, 236, 129],
        None,
        b"[)>\x1E05\x1D\x1E\x04",
        &[],
    ),
];

/// Codewords that say no content.
static REFUSED_ROWS: [(&[u8], ContentFault); 18] = [
    (&[240, 4, 32, 196, 241], ContentFault::Designator(5)),
    (&[233], ContentFault::Append(1)),
    (&[241, 207, 63, 130], ContentFault::Designator(1)),
    (&[241], ContentFault::Designator(1)),
    (&[241, 0, 66], ContentFault::Designator(1)),
    (&[241, 128], ContentFault::Designator(1)),
    (&[241, 128, 0], ContentFault::Designator(1)),
    (&[241, 128, 255, 66], ContentFault::Designator(1)),
    (&[241, 208, 1, 1], ContentFault::Designator(1)),
    (&[233, 0, 1, 1, 66], ContentFault::Append(1)),
    (&[233, 32, 1, 1, 66], ContentFault::Append(1)),
    (&[233, 15, 0, 1, 66], ContentFault::Append(1)),
    (&[233, 15, 1], ContentFault::Append(1)),
    (
        &[66, 233, 15, 1, 1],
        ContentFault::Word(WordFault::LeftOut(233, 2)),
    ),
    (&[66, 234], ContentFault::Word(WordFault::LeftOut(234, 2))),
    (
        &[233, 15, 1, 1, 236, 66],
        ContentFault::Word(WordFault::LeftOut(236, 5)),
    ),
    (
        &[234, 237, 66],
        ContentFault::Word(WordFault::LeftOut(237, 2)),
    ),
    (
        &[239, 254, 66, 236],
        ContentFault::Word(WordFault::LeftOut(236, 4)),
    ),
];

/// A content with a head, so many bytes, and a mark behind them.
fn of_many_with_mark(count: usize) -> Content {
    let mut content = Content::new();
    content.set_head(Some(Head::Programming));
    for _ in 0..count {
        let _room = content.push(Item::Byte(b'A'));
    }
    let _room = content.push_mark(999_999);
    content
}

/// How many codewords of the largest grid the content takes in its normal form, if it has one there.
fn taken(content: &Content) -> Option<usize> {
    let mut words = [0; MOST_GRID_DATA];
    let (items, marks) = (content.items(), content.marks());
    content_words_to(Profile::Ascii, content.head(), items, marks, &mut words).ok()
}

#[test]
fn contents_are_written_where_there_is_room(rt: HostRuntime) {
    let mut content = of_many_with_mark(MOST_GRID_DATA - 5);
    holds(&rt, taken(&content) == Some(MOST_GRID_DATA));
    holds(&rt, taken(&of_many_with_mark(MOST_GRID_DATA - 4)).is_none());
    content.clear();
    holds(&rt, content == Content::new());
}

#[test]
fn marks_are_read(rt: HostRuntime) {
    holds(&rt, are_read(&MARKED_ROWS));
}

#[test]
fn heads_and_macros_are_read(rt: HostRuntime) {
    holds(&rt, are_read(&OPENED_ROWS));
}

#[test]
fn other_codewords_say_no_content(rt: HostRuntime) {
    holds(&rt, are_refused(&REFUSED_ROWS));
}
