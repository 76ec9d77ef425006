//! ECI designators: the number of an assignment in one codeword, two or three (ISO/IEC 16022, ECI encodation).

ghost use Rattle.std.specs.Prelude.{◌≡◌, ◌≤◌, slice_get};
ghost use Rattle.dm_words.specs.Designators.{designator};
ghost use Rattle.dm_words.specs.inner.ContentScan.{first_designator, is_further, two_words, three_words};

use arrayvec::ArrayVec;

/// ECI, behind which a designator stands.
pub(crate) const ECI: u8 = 241;

/// The largest number of an assignment.
pub const MOST_ASSIGNED: u32 = 999_999;

/// The most codewords of a designator.
const DESIGNATOR_ROOM: usize = 3;

/// The first number that takes two codewords.
const FIRST_OF_TWO: u32 = 127;

/// The first number that takes three codewords.
const FIRST_OF_THREE: u32 = 16383;

/// How many values a codeword behind the first one has.
const FURTHER: u32 = 254;

/// A designator that begins some codewords.
#[derive(Clone, Copy, Debug, PartialEq, Eq)]
pub struct Designator {
    /// How many codewords it has: 1 to 3.
    pub count: usize,
    /// The number of the assignment: 0 to 999999.
    pub number: u32,
}

/// Whether the codeword can stand behind the first one of a designator.
fn is_further(word: u8) -> bool
    ensures { result ≡ is_further word }
{
    1 <= word && word <= 254
}

/// Gives what two codewords say, if they are there and are a designator.
fn of_two(first: u8, second: Option<u8>) -> Option<Designator>
    requires low { 128 ≤ first }
    requires high { first ≤ 191 }
    ensures { result ≡ two_words first second }
{
    match second {
        Some(second) if is_further(second) => {
            let number = (first as u32 - 128) * FURTHER + FIRST_OF_TWO + (second as u32 - 1);
            Some(Designator { count: 2, number })
        }
        _ => None,
    }
}

/// Gives what three codewords say, if they are there and are a designator.
fn of_three(first: u8, second: Option<u8>, third: Option<u8>) -> Option<Designator>
    requires low { 192 ≤ first }
    requires high { first ≤ 207 }
    ensures { result ≡ three_words first second third }
{
    let (Some(second), Some(third)) = (second, third) else {
        return None;
    };
    if !is_further(second) || !is_further(third) {
        return None;
    }
    let number = (first as u32 - 192) * (FURTHER * FURTHER)
        + FIRST_OF_THREE
        + (second as u32 - 1) * FURTHER
        + (third as u32 - 1);
    if number <= MOST_ASSIGNED {
        Some(Designator { count: 3, number })
    } else {
        None
    }
}

/// Gives the designator with which the words begin, `None` where they begin with none.
pub(crate) fn first_designator(words: &[u8]) -> Option<Designator>
    ensures { result ≡ first_designator words.now }
{
    let first = word_at(words, 0)?;
    match first {
        1..=127 => Some(Designator {
            count: 1,
            number: first as u32 - 1,
        }),
        128..=191 => of_two(first, word_at(words, 1)),
        192..=207 => of_three(first, word_at(words, 1), word_at(words, 2)),
        _ => None,
    }
}

/// Gives the codeword at an index, `None` behind the last one.
pub(crate) fn word_at(words: &[u8], at: usize) -> Option<u8>
    ensures { result ≡ slice_get words.now at }
{
    words.get(at).copied()
}

/// Gives the designator of a number of 0 to 999999. ISO/IEC 16022, ECI encodation.
pub(crate) fn designator_words(number: u32) -> ArrayVec<u8, DESIGNATOR_ROOM>
    requires { number ≤ MOST_ASSIGNED }
    ensures { result.items ≡ designator number }
{
    let mut words = ArrayVec::new();
    if number < FIRST_OF_TWO {
        words.push(number as u8 + 1);
    } else if number < FIRST_OF_THREE {
        let rest = number - FIRST_OF_TWO;
        words.push((128 + rest / FURTHER) as u8);
        words.push((1 + rest % FURTHER) as u8);
    } else {
        let rest = number - FIRST_OF_THREE;
        words.push((192 + rest / (FURTHER * FURTHER)) as u8);
        words.push((1 + rest / FURTHER % FURTHER) as u8);
        words.push((1 + rest % FURTHER) as u8);
    }
    words
}
