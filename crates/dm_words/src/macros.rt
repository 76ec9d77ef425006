//! Macros (ISO/IEC 16022, 05 and 06 macro characters): one codeword for the header and the trailer of a message.

ghost use Rattle.std.specs.Prelude.{◌≡◌, ◌+◌, ◌≤◌, ◌++◌, List, length, take, IsTrue, IfSome, IfNone};
ghost use Rattle.dm_words.specs.declared.item.Item.{Item};
ghost use Rattle.dm_words.specs.Macros.{macro_text, BeginsFnc1};
ghost use Rattle.dm_words.specs.inner.ContentScan.{macro_header, macro_trailer};
ghost use Rattle.dm_words.specs.inner.Ways.{inner_text, IsMacroOf, HasNoMacro};
ghost use Rattle.dm_words.specs.Codewords.{codeword_of};
ghost use Rattle.dm_words.specs.inner.Scan.Prefixes.{byte_items, digit_by};

use crate::codeword::{Codeword, MACRO_05, MACRO_06, meaning};
use crate::extent::Extent;
use crate::held::add;
use crate::item::Item;

/// The record separator.
const RS: u8 = 30;

/// The group separator.
const GS: u8 = 29;

/// The end of transmission.
const EOT: u8 = 4;

/// Gives the digit of a macro, `None` for any other codeword.
pub(crate) fn digit_of(codeword: u8) -> Option<u8>
    ensures { result ≡ digit_by (codeword_of codeword) }
{
    match meaning(codeword) {
        Some(Codeword::Macro(digit)) => Some(digit),
        _ => None,
    }
}

/// Adds the header of the macro of this digit to the message.
pub(crate) fn add_header(digit: u8, items: &mut [Item], held: &mut usize)
    requires { held.old + 7 ≤ length items.old }
    ensures added { take held.new items.new ≡ take held.old items.old ++ macro_header digit }
    ensures within { held.new ≤ length items.new }
{
    add(Item::Byte(b'['), items, held);
    add(Item::Byte(b')'), items, held);
    add(Item::Byte(b'>'), items, held);
    add(Item::Byte(RS), items, held);
    add(Item::Byte(b'0'), items, held);
    add(Item::Byte(digit), items, held);
    add(Item::Byte(GS), items, held);
}

/// Adds the trailer of a macro to the message.
pub(crate) fn add_trailer(items: &mut [Item], held: &mut usize)
    requires { held.old + 2 ≤ length items.old }
    ensures added { take held.new items.new ≡ take held.old items.old ++ macro_trailer }
    ensures within { held.new ≤ length items.new }
{
    add(Item::Byte(RS), items, held);
    add(Item::Byte(EOT), items, held);
}

/// How many items the header of a macro has.
pub const HEADER_LENGTH: usize = 7;

/// How many items the trailer of a macro has.
pub const TRAILER_LENGTH: usize = 2;

/// Whether the item is this byte.
fn is_byte(item: Item, byte: u8) -> bool
    ensures yes { IsTrue result → item ≡ Item.Byte byte }
    ensures no { item ≡ Item.Byte byte → IsTrue result }
{
    match item {
        Item::Byte(own) => own == byte,
        Item::Fnc1 => false,
    }
}

/// Whether the items are these bytes.
fn are_bytes(items: &[Item], bytes: &[u8]) -> bool
    ensures yes { IsTrue result → items.now ≡ byte_items bytes.now }
    ensures no { items.now ≡ byte_items bytes.now → IsTrue result }
{
    if items.len() != bytes.len() {
        return false;
    }
    for i in 0..bytes.len() {
        if !is_byte(items[i], bytes[i]) {
            return false;
        }
    }
    true
}

/// Whether the items begin with FNC1.
fn begin_with_fnc1(items: &[Item]) -> bool
    ensures yes { IsTrue result → BeginsFnc1 items.now }
    ensures no { BeginsFnc1 items.now → IsTrue result }
{
    match items {
        [Item::Fnc1, ..] => true,
        _ => false,
    }
}

/// Whether the items have the header of the macro of this digit and its trailer, and FNC1 doesn't come first between
/// them. Behind a macro it would be the second codeword, and readers would take it for a sign.
fn is_framed(items: &[Item], digit: u8) -> bool
    ensures long { IsTrue result → 9 ≤ length items.now }
    ensures yes { IsTrue result → items.now ≡ macro_text digit (inner_text items.now) }
    ensures no_fnc1 { IsTrue result → BeginsFnc1 (inner_text items.now) → ⊥ }
    ensures no { (text : List Item) → items.now ≡ macro_text digit text → (BeginsFnc1 text → ⊥) → IsTrue result }
{
    let count = items.len();
    if count < HEADER_LENGTH + TRAILER_LENGTH {
        return false;
    }
    let header = [b'[', b')', b'>', RS, b'0', digit, GS];
    if !are_bytes(&items[..HEADER_LENGTH], &header) {
        return false;
    }
    if begin_with_fnc1(&items[HEADER_LENGTH..count - TRAILER_LENGTH]) {
        return false;
    }
    are_bytes(&items[count - TRAILER_LENGTH..], &[RS, EOT])
}

/// Gives the macro that stands for the header and the trailer of these items, where one is read in this extent and FNC1
/// doesn't come first between them.
pub(crate) fn macro_of(extent: Extent, items: &[Item]) -> Option<u8>
    ensures found { IfSome result (λ word. IsMacroOf extent items.now word) }
    ensures none { IfNone result (HasNoMacro extent items.now) }
{
    match extent {
        Extent::Usual => None,
        Extent::Wide => {
            if is_framed(items, b'5') {
                Some(MACRO_05)
            } else if is_framed(items, b'6') {
                Some(MACRO_06)
            } else {
                None
            }
        }
    }
}
