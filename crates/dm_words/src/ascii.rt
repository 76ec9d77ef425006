//! The ASCII codewords of a message (ISO/IEC 16022, ASCII encodation).

ghost use Rattle.std.specs.Prelude.{◌≡◌, ◌+◌, ◌≤◌, ◌<◌, ◌++◌, IsTrue, length, take, true};
ghost use Rattle.dm_words.specs.Ascii.{ascii, is_digit, digit_pair};
ghost use Rattle.dm_words.specs.NormalForm.{has_fnc1};
ghost use Rattle.dm_words.specs.inner.Scan.Results.{BeginsAscii, IsSingle, unit_words, unit_items, unit_is_fnc1};
ghost use Rattle.dm_words.specs.inner.Scan.Results.{item_words};

use crate::codeword::{FIRST_DIGITS, FNC1, UPPER_SHIFT};
use crate::held::add;
use crate::item::{Item, byte};
use crate::limits::LARGEST_ROOM;

/// A unit of ASCII, with its codeword.
#[derive(Clone, Copy)]
pub enum Unit {
    /// A byte below 128: its codeword.
    One(u8),
    /// Two digits: their codeword.
    Digits(u8),
    /// A byte of 128 or more: the codeword behind its Upper Shift, that of the byte less 128.
    Raised(u8),
    /// FNC1, whose codeword is [`FNC1`].
    Fnc1,
}

/// Whether the byte is a digit, 0 to 9.
fn is_digit(byte: u8) -> bool
    ensures { result ≡ is_digit byte }
{
    b'0' <= byte && byte <= b'9'
}

/// Gives the unit of one byte.
fn single(byte: u8) -> Unit
    ensures { IsSingle result byte }
{
    if byte < 128 {
        Unit::One(byte + 1)
    } else {
        Unit::Raised(byte - 127)
    }
}

/// Gives the codeword of two digits.
pub(crate) fn digit_pair(tens: u8, ones: u8) -> u8
    requires tens { is_digit tens ≡ true }
    requires ones { is_digit ones ≡ true }
    ensures { result ≡ digit_pair tens ones }
{
    FIRST_DIGITS + (10 * (tens - b'0') + (ones - b'0'))
}

/// Gives the unit of one item.
pub(crate) fn unit_of(item: Item) -> Unit
    ensures words { unit_words result ≡ item_words item }
    ensures one { unit_items result ≡ 1 }
{
    match item {
        Item::Fnc1 => Unit::Fnc1,
        Item::Byte(byte) => single(byte),
    }
}

/// Gives the unit that begins at an index.
pub(crate) fn unit_at(items: &[Item], at: usize) -> Unit
    requires { at < length items.now }
    ensures { BeginsAscii result items.now at }
{
    let Item::Byte(first) = items[at] else {
        return Unit::Fnc1;
    };
    if at + 1 < items.len()
        && is_digit(first)
        && let Item::Byte(second) = items[at + 1]
        && is_digit(second)
    {
        return Unit::Digits(digit_pair(first, second));
    }
    single(first)
}

/// What is known of the ASCII form before it is written.
#[derive(Clone, Copy)]
pub struct AsciiForm {
    /// How many codewords it has.
    pub length: usize,
    /// Whether FNC1 is among its items.
    pub has_fnc1: bool,
}

/// Gives what is known of the ASCII form of these items, by one look through them.
pub(crate) fn ascii_form(items: &[Item]) -> AsciiForm
    requires { length items.now ≤ LARGEST_ROOM }
    ensures length { result.length ≡ length (ascii items.now) }
    ensures has_fnc1 { result.has_fnc1 ≡ has_fnc1 items.now }
{
    let mut form = AsciiForm {
        length: 0,
        has_fnc1: false,
    };
    let mut at = 0;
    while at < items.len() {
        match unit_at(items, at) {
            Unit::One(_) => {
                form.length += 1;
                at += 1;
            }
            Unit::Digits(_) => {
                form.length += 1;
                at += 2;
            }
            Unit::Raised(_) => {
                form.length += 2;
                at += 1;
            }
            Unit::Fnc1 => {
                form.length += 1;
                form.has_fnc1 = true;
                at += 1;
            }
        }
    }
    form
}

/// Whether the unit is FNC1.
fn is_fnc1(unit: Unit) -> bool
    ensures { result ≡ unit_is_fnc1 unit }
{
    matches!(unit, Unit::Fnc1)
}

/// Adds the codewords of a unit, and gives the number of its items.
pub(crate) fn write_unit(unit: Unit, words: &mut [u8], held: &mut usize) -> usize
    requires { held.old + length (unit_words unit) ≤ length words.old }
    ensures words { take held.new words.new ≡ take held.old words.old ++ unit_words unit }
    ensures counted { held.new ≡ held.old + length (unit_words unit) }
    ensures item_count { result ≡ unit_items unit }
{
    match unit {
        Unit::One(word) => {
            add(word, words, held);
            1
        }
        Unit::Digits(word) => {
            add(word, words, held);
            2
        }
        Unit::Raised(word) => {
            add(UPPER_SHIFT, words, held);
            add(word, words, held);
            1
        }
        Unit::Fnc1 => {
            add(FNC1, words, held);
            1
        }
    }
}

/// Adds the ASCII codewords of the items: from the left, two digits in one codeword wherever two come first. Says
/// whether FNC1 is among the items.
pub(crate) fn add_ascii(items: &[Item], words: &mut [u8], held: &mut usize) -> bool
    requires { held.old + length (ascii items.now) ≤ length words.old }
    ensures words { take held.new words.new ≡ take held.old words.old ++ ascii items.now }
    ensures counted { held.new ≡ held.old + length (ascii items.now) }
    ensures has_fnc1 { result ≡ has_fnc1 items.now }
{
    let mut has_fnc1 = false;
    let mut at = 0;
    while at < items.len() {
        let unit = unit_at(items, at);
        has_fnc1 |= is_fnc1(unit);
        at += write_unit(unit, words, held);
    }
    has_fnc1
}

/// Writes the ASCII codewords of the items to the beginning of the target, and gives what is then known of them.
pub(crate) fn write_ascii(items: &[Item], words: &mut [u8]) -> AsciiForm
    requires { length (ascii items.now) ≤ length words.old }
    ensures words { take result.length words.new ≡ ascii items.now }
    ensures length { result.length ≡ length (ascii items.now) }
    ensures has_fnc1 { result.has_fnc1 ≡ has_fnc1 items.now }
{
    let mut length = 0;
    let has_fnc1 = add_ascii(items, words, &mut length);
    AsciiForm { length, has_fnc1 }
}

/// Whether the ASCII codewords of the items are surely no more than `most`: there are at most half as many items, or at
/// most as many and none takes two codewords.
pub(crate) fn surely_fits(items: &[Item], most: usize) -> bool
    ensures { IsTrue result → length (ascii items.now) ≤ most }
{
    items.len() <= most / 2 || items.len() <= most && are_below_128(items)
}

/// Whether each item has a byte below 128 or is FNC1, so that it takes at most one codeword.
// The loop has no other end than that of the items, so that it looks at many of them at once.
fn are_below_128(items: &[Item]) -> bool
    ensures { IsTrue result → length (ascii items.now) ≤ length items.now }
{
    let mut most = 0;
    for item in items {
        most = most.max(byte(*item));
    }
    most < 128
}
