//! The spellings of items, byte by byte.

ghost use Rattle.std.specs.Prelude.{◌≡◌, ◌∷◌, ◌++◌, [], ℕ, IfNone, IfSome, length};
ghost use Rattle.dm_text.specs.Spellings.{IsHexDigit};
ghost use Rattle.dm_text.specs.inner.OpenLines.{IsNext, pending_bytes};

use dm_symbol::Item;

/// The bytes of a spelling that is not whole yet.
#[derive(Clone, Copy)]
pub(crate) enum Pending {
    Nothing,
    /// `\`
    Backslash,
    /// `\x`
    Hexadecimal,
    /// `\x` and a digit
    Digit(u8),
}

/// What the bytes of a spelling come to with one more byte.
pub(crate) enum Next {
    Whole(Item),
    Begun(Pending),
    Fault,
}

impl Pending {
    /// Gives how many bytes are pending.
    pub(crate) fn count(self) -> u64
        ensures { result ≡ length (pending_bytes self) }
    {
        match self {
            Pending::Nothing => 0,
            Pending::Backslash => 1,
            Pending::Hexadecimal => 2,
            Pending::Digit(_) => 3,
        }
    }

    /// Gives what the pending bytes and one more come to.
    pub(crate) fn next(self, byte: u8) -> Next
        ensures { IsNext (pending_bytes self ++ byte ∷ []) result }
    {
        match self {
            Pending::Nothing => first(byte),
            Pending::Backslash => after_backslash(byte),
            Pending::Hexadecimal => first_digit(byte),
            Pending::Digit(first) => second_digit(first, byte),
        }
    }
}

/// Gives the value of a hexadecimal digit, of either case.
fn hex_value(digit: u8) -> Option<u8>
    ensures some { IfSome result (λ value. IsHexDigit digit value) }
    ensures none { IfNone result ((value : ℕ) → IsHexDigit digit value → ⊥) }
{
    match digit {
        b'0'..=b'9' => Some(digit - b'0'),
        b'A'..=b'F' => Some(digit - b'A' + 10),
        b'a'..=b'f' => Some(digit - b'a' + 10),
        _ => None,
    }
}

/// Gives what the first byte of a spelling comes to.
fn first(byte: u8) -> Next
    ensures { IsNext (byte ∷ []) result }
{
    match byte {
        b'\\' => Next::Begun(Pending::Backslash),
        b' '..=b'~' => Next::Whole(Item::Byte(byte)),
        _ => Next::Fault,
    }
}

/// Gives what the byte after a backslash comes to.
fn after_backslash(byte: u8) -> Next
    ensures { IsNext (92 ∷ byte ∷ []) result }
{
    match byte {
        b'\\' => Next::Whole(Item::Byte(b'\\')),
        b'F' => Next::Whole(Item::Fnc1),
        b'x' => Next::Begun(Pending::Hexadecimal),
        _ => Next::Fault,
    }
}

/// Gives what the byte after `\x` comes to.
fn first_digit(byte: u8) -> Next
    ensures { IsNext (92 ∷ 120 ∷ byte ∷ []) result }
{
    match hex_value(byte) {
        Some(_) => Next::Begun(Pending::Digit(byte)),
        None => Next::Fault,
    }
}

/// Gives what the byte after `\x` and a digit comes to.
fn second_digit(first: u8, byte: u8) -> Next
    ensures { IsNext (92 ∷ 120 ∷ first ∷ byte ∷ []) result }
{
    let Some(high) = hex_value(first) else {
        return Next::Fault;
    };
    let Some(low) = hex_value(byte) else {
        return Next::Fault;
    };
    Next::Whole(Item::Byte(16 * high + low))
}
