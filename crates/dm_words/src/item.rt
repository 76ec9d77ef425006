//! The items of a message.

ghost use Rattle.std.specs.Prelude.{◌≡◌};
ghost use Rattle.dm_words.specs.Messages.{byte_of};

/// An item of a message: a byte, or the function character FNC1. No item is interpreted. FNC1 is the default, and
/// stands first, so that it is all zeros: a list of them is then made where it is to stand, by clearing that memory, so
/// it isn't copied there.
#[derive(Clone, Copy, Debug, Default, PartialEq, Eq)]
pub enum Item {
    /// FNC1 (ISO/IEC 16022, function characters).
    #[default]
    Fnc1,
    /// A byte, of 0 to 255.
    Byte(u8),
}

/// Gives the byte of an item; FNC1 has none, and counts as 0.
pub(crate) fn byte(item: Item) -> u8
    ensures { result ≡ byte_of item }
{
    match item {
        Item::Byte(byte) => byte,
        Item::Fnc1 => 0,
    }
}
