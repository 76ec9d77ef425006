//! Messages and codewords of which tests are made.

use arrayvec::ArrayVec;
use dm_layout::MOST_GRID_CODEWORDS;
use dm_words::{Item, Message};

/// Room for the codewords of a symbol.
pub(crate) type Codewords = ArrayVec<u8, MOST_GRID_CODEWORDS>;

/// The message of one byte so many times, as far as there is room.
pub(crate) fn of_many(byte: u8, count: usize) -> Message {
    let mut message = Message::new();
    for _ in 0..count {
        let _room = message.push(Item::Byte(byte));
    }
    message
}

/// The message of these bytes, as far as there is room.
pub(crate) fn of_bytes(bytes: &[u8]) -> Message {
    let mut message = Message::new();
    for byte in bytes {
        let _room = message.push(Item::Byte(*byte));
    }
    message
}

/// The message of these items, as far as there is room.
pub(crate) fn of_items(items: &[Item]) -> Message {
    let mut message = Message::new();
    for item in items {
        let _room = message.push(*item);
    }
    message
}

/// Whether the items are these bytes.
pub(crate) fn are_bytes(items: &[Item], bytes: &[u8]) -> bool {
    if items.len() != bytes.len() {
        return false;
    }
    for i in 0..items.len() {
        if items[i] != Item::Byte(bytes[i]) {
            return false;
        }
    }
    true
}

/// Whether each codeword of the list is this one.
pub(crate) fn are_all(list: &[u8], word: u8) -> bool {
    for found in list {
        if *found != word {
            return false;
        }
    }
    true
}
