//! The code sets of C40, Text and X12: what a value means.

ghost use Rattle.std.specs.Prelude.{◌≡◌, ◌<◌, Some};
ghost use Rattle.dm_words.specs.CodeSets.{basic_of, shifted_of};

/// The encodation of a run.
#[derive(Clone, Copy)]
pub enum CodeSet {
    C40,
    Text,
    X12,
}

/// Shift 1, Shift 2 or Shift 3, each of which holds for one value.
#[derive(Clone, Copy)]
pub enum Shift {
    One,
    Two,
    Three,
}

/// What a value means in the basic set.
#[derive(Clone, Copy)]
pub enum Basic {
    Character(u8),
    Shift(Shift),
}

/// What a value means after a shift.
#[derive(Clone, Copy)]
pub enum Shifted {
    Character(u8),
    Fnc1,
    UpperShift,
}

/// Gives the meaning of a value in the basic set.
pub(crate) fn basic_meaning(set: CodeSet, value: u8) -> Basic
    requires { value < 40 }
    ensures { basic_of set value ≡ Some result }
{
    match (set, value) {
        (CodeSet::X12, 0) => Basic::Character(b'\r'),
        (CodeSet::X12, 1) => Basic::Character(b'*'),
        (CodeSet::X12, 2) => Basic::Character(b'>'),
        (_, 0) => Basic::Shift(Shift::One),
        (_, 1) => Basic::Shift(Shift::Two),
        (_, 2) => Basic::Shift(Shift::Three),
        (_, 3) => Basic::Character(b' '),
        (_, 4..=13) => Basic::Character(value - 4 + b'0'),
        (CodeSet::Text, _) => Basic::Character(value - 14 + b'a'),
        _ => Basic::Character(value - 14 + b'A'),
    }
}

/// Gives the meaning of a value after a shift, or `None` where it has none. X12 has no shift.
pub(crate) fn shifted_meaning(set: CodeSet, shift: Shift, value: u8) -> Option<Shifted>
    ensures { result ≡ shifted_of set shift value }
{
    match (set, shift) {
        (CodeSet::X12, _) => None,
        (_, Shift::One) => first_meaning(value),
        (_, Shift::Two) => second_meaning(value),
        (CodeSet::C40, Shift::Three) => third_meaning(value),
        (CodeSet::Text, Shift::Three) => third_meaning_in_text(value),
    }
}

/// Gives the meaning of a value after Shift 1 in C40 and Text.
fn first_meaning(value: u8) -> Option<Shifted>
    ensures { result ≡ shifted_of CodeSet.C40 Shift.One value }
{
    if value < 32 {
        Some(Shifted::Character(value))
    } else {
        None
    }
}

/// Gives the meaning of a value after Shift 2 in C40 and Text.
fn second_meaning(value: u8) -> Option<Shifted>
    ensures { result ≡ shifted_of CodeSet.C40 Shift.Two value }
{
    match value {
        0..=14 => Some(Shifted::Character(value + 33)),
        15..=21 => Some(Shifted::Character(value + 43)),
        22..=26 => Some(Shifted::Character(value + 69)),
        27 => Some(Shifted::Fnc1),
        30 => Some(Shifted::UpperShift),
        _ => None,
    }
}

/// Gives the meaning of a value after Shift 3 in C40.
fn third_meaning(value: u8) -> Option<Shifted>
    ensures { result ≡ shifted_of CodeSet.C40 Shift.Three value }
{
    if value < 32 {
        Some(Shifted::Character(value + 96))
    } else {
        None
    }
}

/// Gives the meaning of a value after Shift 3 in Text.
fn third_meaning_in_text(value: u8) -> Option<Shifted>
    ensures { result ≡ shifted_of CodeSet.Text Shift.Three value }
{
    match value {
        1..=26 => Some(Shifted::Character(value + 64)),
        0..=31 => Some(Shifted::Character(value + 96)),
        _ => None,
    }
}
