//! Heads as numbers.

ghost use Rattle.std.specs.Prelude.{◌≡◌, ◌∷◌, [], IfNone, IfSome, Option};
ghost use Rattle.ecc200_calls.specs.Contents.{AreOfHead, head_shown};
ghost use Rattle.ecc200_calls.specs.inner.Heads.{IsEmpty};

use dm_symbol::{Appended, Head};

/// The most symbols of a sequence.
const MOST_PARTS: u16 = 16;

/// A head as numbers: its kind, 0 for none, 1 for a symbol of a sequence and 2 for reader programming; and of a symbol
/// of a sequence its place, counted from 1, the count of the symbols and the file identification. Else these are 0.
#[repr(C)]
#[derive(Clone, Copy)]
pub struct HeadNumbers {
    pub kind: u16,
    pub part: u16,
    pub parts: u16,
    pub file: [u8; 2],
}

/// Gives the numbers of a head, or of none.
pub(crate) fn head_shown(head: Option<Head>) -> HeadNumbers
    ensures { result ≡ head_shown head }
{
    match head {
        None => of_kind(0),
        Some(Head::Appended(symbol)) => HeadNumbers {
            kind: 1,
            part: u16::from(symbol.index),
            parts: u16::from(symbol.count),
            file: [symbol.file_high, symbol.file_low],
        },
        Some(Head::Programming) => of_kind(2),
    }
}

/// Gives the numbers of what has a kind and nothing else.
fn of_kind(kind: u16) -> HeadNumbers
    ensures { result ≡ record { kind = kind; part = 0; parts = 0; file = 0 ∷ 0 ∷ [] } }
{
    HeadNumbers {
        kind,
        part: 0,
        parts: 0,
        file: [0; 2],
    }
}

/// Gives the head, or none, of which these are the numbers; `None` where they are those of no head.
pub(crate) fn head_of(numbers: HeadNumbers) -> Option<Option<Head>>
    ensures some { IfSome result (λ head. AreOfHead numbers head) }
    ensures none { IfNone result ((head : Option Head) → AreOfHead numbers head → ⊥) }
{
    match numbers.kind {
        0 => of_empty(numbers, None),
        1 => appended_of(numbers),
        2 => of_empty(numbers, Some(Head::Programming)),
        _ => None,
    }
}

/// Gives this head if all numbers but the kind are 0.
fn of_empty(numbers: HeadNumbers, head: Option<Head>) -> Option<Option<Head>>
    ensures some { IfSome result (λ given. (given ≡ head) × IsEmpty numbers) }
    ensures none { IfNone result (IsEmpty numbers → ⊥) }
{
    if numbers.part == 0 && numbers.parts == 0 && numbers.file[0] == 0 && numbers.file[1] == 0 {
        Some(head)
    } else {
        None
    }
}

/// Gives the symbol of a sequence that has these numbers.
fn appended_of(numbers: HeadNumbers) -> Option<Option<Head>>
    requires { numbers.kind ≡ 1 }
    ensures some { IfSome result (λ head. AreOfHead numbers head) }
    ensures none { IfNone result ((head : Option Head) → AreOfHead numbers head → ⊥) }
{
    if numbers.part > MOST_PARTS || numbers.parts > MOST_PARTS {
        return None;
    }
    let symbol = Appended {
        index: numbers.part as u8,
        count: numbers.parts as u8,
        file_high: numbers.file[0],
        file_low: numbers.file[1],
    };
    if symbol.is_right() {
        Some(Some(Head::Appended(symbol)))
    } else {
        None
    }
}
