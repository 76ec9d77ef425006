//! The texts of messages.

ghost use Rattle.std.specs.Prelude.{◌≡◌, ◌↔◌, ◌≤◌, ◌<◌, ◌*◌, ◌+◌, ◌++◌, List, Result, length};
ghost use Rattle.dm_symbol.specs.declared.Item.{Item as AnItem};
ghost use Rattle.dm_text.specs.Spellings.{spelling_of, text_of, upper_digit};
ghost use Rattle.dm_text.specs.MessageLines.{IsLine};

use crate::open_line::OpenLine;
use crate::text::Text;
use arrayvec::ArrayVec;
use dm_symbol::{Item, MESSAGE_ROOM, Message};

/// The most bytes of a message's text: four for each item.
pub const MOST_TEXT: usize = 4 * MESSAGE_ROOM;

/// Why a line is no message.
#[derive(Clone, Copy, Debug, PartialEq, Eq)]
pub enum LineFault {
    /// A byte outside 32 to 126, or a backslash that begins none of `\\`, `\F` and `\xHH`: the column of the first
    /// one, counting bytes from 1. A column above `u64::MAX` is given as that.
    BadEscape(u64),
    /// More than [`MOST_ITEMS`](dm_symbol::MOST_ITEMS) items.
    TooLong,
}

/// Gives the message that a line, given without its LF, spells.
///
/// Bytes 32 to 126 other than the backslash stand for themselves, `\\` is the backslash, `\F` is FNC1, and `\xHH` is
/// the byte of two hexadecimal digits, of either case. The error is `BadEscape` where a line has anything else, and
/// otherwise `TooLong` where it has more than [`MOST_ITEMS`](dm_symbol::MOST_ITEMS) items.
pub fn message_from(line: &[u8]) -> Result<Message, LineFault>
    ensures { (meaning : Result (List AnItem) LineFault)
        → (result ≡ meaning) ↔ IsLine line.now meaning }
{
    let mut open = OpenLine::new();
    open.take(line);
    open.close()
}

/// Gives the text of a message: a line that spells it, without an LF.
///
/// Bytes 32 to 126 are written as themselves, the backslash as `\\`, other bytes as `\xHH` with
/// upper-case digits, and FNC1 as `\F`. [`message_from`] reads the text as the message if this has at most
/// [`MOST_ITEMS`](dm_symbol::MOST_ITEMS) items, and refuses a longer one, which a macro may spell, with `TooLong`.
pub fn message_text(message: &Message) -> ArrayVec<u8, MOST_TEXT>
    ensures { result.items ≡ text_of message.now }
{
    let mut text: Text<MOST_TEXT> = Text::new();
    push_items(&mut text, message.items());
    let mut list = ArrayVec::new();
    let _room = list.try_extend_from_slice(text.as_slice());
    list
}

/// Appends the text of a message with these items.
pub(crate) fn push_items<const N: usize>(text: &mut Text<N>, items: &[Item])
    requires { length text.old.items + 4 * length items.now ≤ N }
    ensures text { text.new.items ≡ text.old.items ++ text_of items.now }
    ensures room { length text.new.items ≤ length text.old.items + 4 * length items.now }
{
    for item in items {
        spell(text, *item);
    }
}

/// Appends how an item is written.
#[inline]
fn spell<const N: usize>(text: &mut Text<N>, item: Item)
    requires { length text.old.items + 4 ≤ N }
    ensures text { text.new.items ≡ text.old.items ++ spelling_of item }
    ensures room { length text.new.items ≤ length text.old.items + 4 }
{
    match item {
        Item::Fnc1 => text.push_all(b"\\F"),
        Item::Byte(b'\\') => text.push_all(b"\\\\"),
        Item::Byte(byte @ b' '..=b'~') => text.push(byte),
        Item::Byte(byte) => {
            let (high, low) = (upper_digit(byte / 16), upper_digit(byte % 16));
            text.push_all(&[b'\\', b'x', high, low]);
        }
    }
}

/// Gives the hexadecimal digit of a value, in upper case.
fn upper_digit(value: u8) -> u8
    requires { value < 16 }
    ensures { result ≡ upper_digit value }
{
    if value < 10 {
        b'0' + value
    } else {
        b'A' - 10 + value
    }
}
