//! Heads: structured append and reader programming.

ghost use Rattle.std.specs.Prelude.{◌≡◌, IsTrue, ◌↔◌};
ghost use Rattle.dm_words.specs.Heads.{IsAppended, IsHead, head_words};
ghost use Rattle.dm_words.specs.inner.ContentScan.{first_head, append_by, head_length, is_appended};

use crate::contents::designator::word_at;
use arrayvec::ArrayVec;

/// Structured append, the codeword that begins the head of a symbol of a sequence.
pub(crate) const APPEND: u8 = 233;

/// Reader programming, which is a head by itself.
pub(crate) const PROGRAMMING: u8 = 234;

/// The most codewords of a head.
const HEAD_ROOM: usize = 4;

/// Which symbol of a sequence this is (ISO/IEC 16022, structured append).
#[derive(Clone, Copy, Debug, PartialEq, Eq)]
pub struct Appended {
    /// The place in the sequence, counted from 1: at most `count`.
    pub index: u8,
    /// How many symbols the sequence has: 2 to 16.
    pub count: u8,
    /// The first half of the file identification, which all symbols of a sequence share: 1 to 254.
    pub file_high: u8,
    /// Its second half: 1 to 254.
    pub file_low: u8,
}

/// What the codewords before all others say of a symbol, where they say something.
#[derive(Clone, Copy, Debug, PartialEq, Eq)]
pub enum Head {
    /// The message programs the reader (ISO/IEC 16022, reader programming).
    Programming,
    /// The symbol is one of a sequence (ISO/IEC 16022, structured append).
    Appended(Appended),
}

impl Appended {
    /// Whether the numbers are those of a symbol of a sequence: `index` is 1 to `count`, this is 2 to 16, and each half
    /// of the file identification is 1 to 254.
    pub fn is_right(&self) -> bool
        ensures { IsTrue result ↔ IsAppended self.now }
    {
        1 <= self.index
            && self.index <= self.count
            && 2 <= self.count
            && self.count <= 16
            && 1 <= self.file_high
            && self.file_high <= 254
            && 1 <= self.file_low
            && self.file_low <= 254
    }
}

/// Gives the head with which the words begin, `None` where they begin with none.
pub(crate) fn first_head(words: &[u8]) -> Option<Head>
    ensures { result ≡ first_head words.now }
{
    match word_at(words, 0)? {
        PROGRAMMING => Some(Head::Programming),
        APPEND => append_head(word_at(words, 1), word_at(words, 2), word_at(words, 3)),
        _ => None,
    }
}

/// Gives the head whose three codewords behind structured append are these, `None` where they are none.
fn append_head(indicator: Option<u8>, high: Option<u8>, low: Option<u8>) -> Option<Head>
    ensures { result ≡ append_by indicator high low }
{
    let (Some(indicator), Some(high), Some(low)) = (indicator, high, low) else {
        return None;
    };
    let symbol = Appended {
        index: indicator / 16 + 1,
        count: 17 - indicator % 16,
        file_high: high,
        file_low: low,
    };
    if symbol.is_right() {
        Some(Head::Appended(symbol))
    } else {
        None
    }
}

/// Gives how many codewords a head has.
pub(crate) fn head_length(head: Head) -> usize
    ensures { result ≡ head_length head }
{
    match head {
        Head::Programming => 1,
        Head::Appended(_) => 4,
    }
}

/// Gives the codewords of a head: its sequence indicator is 16 times one less than `index`, and 17 less `count`.
/// ISO/IEC 16022, structured append, reader programming.
pub(crate) fn head_words(head: Option<Head>) -> ArrayVec<u8, HEAD_ROOM>
    requires { IsHead head }
    ensures { result.items ≡ head_words head }
{
    let mut words = ArrayVec::new();
    match head {
        None => {}
        Some(Head::Programming) => words.push(PROGRAMMING),
        Some(Head::Appended(symbol)) => {
            words.push(APPEND);
            words.push(16 * (symbol.index - 1) + (17 - symbol.count));
            words.push(symbol.file_high);
            words.push(symbol.file_low);
        }
    }
    words
}
