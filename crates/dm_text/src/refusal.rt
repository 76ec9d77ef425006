//! The texts of refusals.

ghost use Rattle.std.specs.Prelude.{◌≡◌, ◌≤◌, ◌+◌, ◌++◌, length};
ghost use Rattle.std.specs.Fmt.{decimal};
ghost use Rattle.dm_text.specs.Refusals.{line_refusal, normal_refusal, read_refusal, record_refusal, too_long_refusal};
ghost use Rattle.dm_text.specs.Refusals.{word_refusal};

use crate::message_line::LineFault;
use crate::printed::{GatheredText, MOST_DIGITS, MOST_GATHERED, push_decimal};
use crate::record::RecordFault;
use dm_symbol::{NormalFault, ReadFault, WordFault};

/// More bytes than the longest refusal has.
const MOST_REFUSAL: usize = 80;

// Each of these appends a refusal without an LF; there is room for the longest.

/// Appends the refusal of a record.
pub(crate) fn push_record_refusal(text: &mut GatheredText, fault: RecordFault)
    requires { length text.old.items + MOST_REFUSAL ≤ MOST_GATHERED }
    ensures text { text.new.items ≡ text.old.items ++ record_refusal fault }
    ensures room { length text.new.items ≤ length text.old.items + MOST_REFUSAL }
{
    match fault {
        RecordFault::Character => text.push_all(b"\\no 1 character"),
        RecordFault::Large => text.push_all(b"\\no 2 large"),
        RecordFault::NotSquare => text.push_all(b"\\no 3 shape"),
        RecordFault::NoSuchSize(side) => push_numbered(text, b"\\no 4 side ", u64::from(side)),
    }
}

/// Appends the refusal of a grid that is not read.
pub(crate) fn push_read_refusal(text: &mut GatheredText, fault: ReadFault)
    requires { length text.old.items + MOST_REFUSAL ≤ MOST_GATHERED }
    ensures text { text.new.items ≡ text.old.items ++ read_refusal fault }
    ensures room { length text.new.items ≤ length text.old.items + MOST_REFUSAL }
{
    match fault {
        ReadFault::Border(count) => push_numbered(text, b"\\no 5 border ", u64::from(count)),
        ReadFault::Block(block) => push_numbered(text, b"\\no 6 block ", u64::from(block)),
        ReadFault::Words(why) => push_word_refusal(text, why),
    }
}

/// Appends the refusal of data codewords that spell no message.
fn push_word_refusal(text: &mut GatheredText, fault: WordFault)
    requires { length text.old.items + MOST_REFUSAL ≤ MOST_GATHERED }
    ensures text { text.new.items ≡ text.old.items ++ word_refusal fault }
    ensures room { length text.new.items ≤ length text.old.items + MOST_REFUSAL }
{
    match fault {
        WordFault::Reserved(place) => push_numbered(text, b"\\no 7 reserved ", u64::from(place)),
        WordFault::LeftOut(value, place) => {
            push_numbered(text, b"\\no 8 left-out ", u64::from(value));
            push_numbered(text, b" ", u64::from(place));
        }
        WordFault::UpperShift(place) => push_numbered(
            text,
            b"\\no 9 upper-shift ",
            u64::from(place),
        ),
        WordFault::Triplet(place) => push_numbered(text, b"\\no 10 triplet ", u64::from(place)),
        WordFault::Value(place) => push_numbered(text, b"\\no 11 value ", u64::from(place)),
        WordFault::Length(place) => push_numbered(text, b"\\no 12 length ", u64::from(place)),
        WordFault::Unfinished(place) => push_numbered(
            text,
            b"\\no 13 unfinished ",
            u64::from(place),
        ),
    }
}

/// Appends the refusal of a grid that has no normal grid.
pub(crate) fn push_normal_refusal(text: &mut GatheredText, fault: NormalFault)
    requires { length text.old.items + MOST_REFUSAL ≤ MOST_GATHERED }
    ensures text { text.new.items ≡ text.old.items ++ normal_refusal fault }
    ensures room { length text.new.items ≤ length text.old.items + MOST_REFUSAL }
{
    match fault {
        NormalFault::Read(why) => push_read_refusal(text, why),
        NormalFault::TooLong => push_too_long_refusal(text),
    }
}

/// Appends the refusal of a message that fits no size.
pub(crate) fn push_too_long_refusal(text: &mut GatheredText)
    requires { length text.old.items + MOST_REFUSAL ≤ MOST_GATHERED }
    ensures text { text.new.items ≡ text.old.items ++ too_long_refusal }
    ensures room { length text.new.items ≤ length text.old.items + MOST_REFUSAL }
{
    text.push_all(b"\\no 14 too-long");
}

/// Appends the refusal of a line that is no message.
pub(crate) fn push_line_refusal(text: &mut GatheredText, fault: LineFault)
    requires { length text.old.items + MOST_REFUSAL ≤ MOST_GATHERED }
    ensures text { text.new.items ≡ text.old.items ++ line_refusal fault }
    ensures room { length text.new.items ≤ length text.old.items + MOST_REFUSAL }
{
    match fault {
        LineFault::TooLong => push_too_long_refusal(text),
        LineFault::BadEscape(column) => push_numbered(text, b"\\no 15 escape ", column),
    }
}

/// More bytes than the words before a number in a refusal have.
const MOST_WORDS: usize = 20;

/// Appends words, and a number in decimal digits.
fn push_numbered(text: &mut GatheredText, words: &[u8], number: u64)
    requires few { length words.now ≤ MOST_WORDS }
    requires room { length text.old.items + (MOST_WORDS + MOST_DIGITS) ≤ MOST_GATHERED }
    ensures text { text.new.items ≡ text.old.items ++ (words.now ++ decimal number) }
    ensures room { length text.new.items ≤ length text.old.items + (MOST_WORDS + MOST_DIGITS) }
{
    text.push_all(words);
    push_decimal(text, number);
}
