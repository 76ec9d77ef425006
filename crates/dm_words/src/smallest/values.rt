//! The values of an item in a run of C40, Text or X12.

ghost use Rattle.std.specs.Prelude.{◌≡◌, ◌≤◌, ◌<◌, ◌∷◌, [], false, IfSome, IfNone, Some, length};
ghost use Rattle.dm_words.specs.declared.c40.set.CodeSet.{CodeSet};
ghost use Rattle.dm_words.specs.declared.c40.set.Basic.TheVariants as Basic;
ghost use Rattle.dm_words.specs.CodeSets.{basic_of};
ghost use Rattle.dm_words.specs.Values.{IsSpelling};
ghost use Rattle.dm_words.specs.inner.Costs.{first_content, is_basic, is_one_value, is_sign, set_values};
ghost use Rattle.dm_words.specs.inner.Written.{HasShifts, IsHeldBy, IsLow, IsCharacterPushed};

use crate::c40::set::{CodeSet, Shift};
use crate::item::Item;
use arrayvec::ArrayVec;

/// How a byte below 128 is written in a set.
#[derive(Clone, Copy)]
pub enum Low {
    /// By one value of the basic set.
    Plain(u8),
    /// By a shift, and a value.
    Shifted(Shift, u8),
}

/// Gives the value of a byte in a basic set, if it is one value there. Contents come first, since most bytes are.
fn basic_value(set: CodeSet, byte: u8) -> Option<u8>
    ensures value { IfSome result (λ value. basic_of set value ≡ Some (Basic.Character byte)) }
    ensures small { IfSome result (λ value. value < 40) }
    ensures none { IfNone result (is_basic set byte ≡ false) }
{
    let content = byte.wrapping_sub(first_content(set));
    if content < 26 {
        return Some(content + 14);
    }
    match byte {
        b'0'..=b'9' => Some(byte - 44),
        b' ' => Some(3),
        _ => sign_value(set, byte),
    }
}

/// Gives the first of the contents that are one value of a set.
fn first_content(set: CodeSet) -> u8
    ensures { result ≡ first_content set }
{
    match set {
        CodeSet::C40 | CodeSet::X12 => b'A',
        CodeSet::Text => b'a',
    }
}

/// Gives the value of a byte that is neither a content nor a digit nor a space in a basic set, if it is one value
/// there.
fn sign_value(set: CodeSet, byte: u8) -> Option<u8>
    ensures value { IfSome result (λ value. basic_of set value ≡ Some (Basic.Character byte)) }
    ensures small { IfSome result (λ value. value < 3) }
    ensures none { IfNone result (is_sign set byte ≡ false) }
{
    match (set, byte) {
        (CodeSet::X12, b'\r') => Some(0),
        (CodeSet::X12, b'*') => Some(1),
        (CodeSet::X12, b'>') => Some(2),
        _ => None,
    }
}

/// Gives the values of a byte below 128 in a set that has it.
fn low_value(set: CodeSet, byte: u8) -> Low
    requires low { byte < 128 }
    requires has { IsHeldBy set byte }
    ensures { IsLow set byte result }
{
    if let Some(value) = basic_value(set, byte) {
        return Low::Plain(value);
    }
    match byte {
        0..=31 => Low::Shifted(Shift::One, byte),
        32..=47 => Low::Shifted(Shift::Two, byte - 33),
        48..=64 => Low::Shifted(Shift::Two, byte - 43),
        65..=90 => Low::Shifted(Shift::Three, byte - 64),
        91..=95 => Low::Shifted(Shift::Two, byte - 69),
        _ => Low::Shifted(Shift::Three, byte - 96),
    }
}

/// Gives the value of a shift.
fn shift_value(shift: Shift) -> u8
    ensures values { (set : CodeSet) → HasShifts set
        → basic_of set result ≡ Some (Basic.Shift shift) }
    ensures small { result < 3 }
{
    match shift {
        Shift::One => 0,
        Shift::Two => 1,
        Shift::Three => 2,
    }
}

/// Adds the values of a byte below 128 in a set that has it.
fn push_low(set: CodeSet, byte: u8, values: &mut ArrayVec<u8, 4>)
    requires low { byte < 128 }
    requires has { IsHeldBy set byte }
    requires room { length values.old.items ≤ 2 }
    ensures { IsCharacterPushed set byte values.old.items values.new.items }
{
    match low_value(set, byte) {
        Low::Plain(value) => values.push(value),
        Low::Shifted(shift, value) => {
            values.push(shift_value(shift));
            values.push(value);
        }
    }
}

/// Gives the value of an item that is one value of a set, as most items of a run are.
pub(crate) fn one_value(set: CodeSet, item: Item) -> Option<u8>
    ensures value { IfSome result (λ value. IsSpelling set (value ∷ []) item) }
    ensures small { IfSome result (λ value. value < 40) }
    ensures none { IfNone result (is_one_value set item ≡ false) }
{
    match item {
        Item::Byte(byte) => basic_value(set, byte),
        Item::Fnc1 => None,
    }
}

/// Gives the values of an item in a set that has it.
pub(crate) fn values_of(set: CodeSet, item: Item) -> ArrayVec<u8, 4>
    requires { 0 < set_values set item }
    ensures { IsSpelling set result.items item }
{
    let mut values = ArrayVec::new();
    match item {
        Item::Fnc1 => {
            values.push(1);
            values.push(27);
        }
        Item::Byte(byte) => {
            if byte < 128 {
                push_low(set, byte, &mut values);
            } else {
                values.push(1);
                values.push(30);
                push_low(set, byte - 128, &mut values);
            }
        }
    }
    values
}
