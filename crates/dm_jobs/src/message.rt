//! Messages of texts.

use crate::texts::{Text, byte_of};
use dm_layout::symbols::{SizeChoice, Symbol, SymbolWords};
use dm_symbol::{Form, Item, Message, WriteOptions, write_content_to};
use dm_words::TooLong;

/// Turns a message into that of a text.
pub(crate) fn put_message(text: &Text, message: &mut Message) {
    message.clear();
    for item in text.as_slice() {
        let _room = message.push(match byte_of(*item) {
            Some(byte) => Item::Byte(byte),
            None => Item::Fnc1,
        });
    }
}

/// Writes a message in a form and in a choice of sizes.
pub(crate) fn write(
    message: &Message,
    form: Form,
    size: SizeChoice,
    words: &mut SymbolWords,
    symbol: &mut Symbol,
) -> Result<(), TooLong> {
    let how = WriteOptions { form, size };
    write_content_to(None, message.items(), &[], how, words, symbol)
}
