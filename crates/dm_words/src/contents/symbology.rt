//! The symbology identifier of a symbol, which says whether FNC1 stands at its beginning, and whether it has marks.

ghost use Rattle.std.specs.Prelude.{◌≡◌, ◌≤◌};
ghost use Rattle.dm_words.specs.Contents.{Says};
ghost use Rattle.dm_words.specs.Symbology.{IsIdentifier};
ghost use Rattle.dm_words.specs.inner.Fnc1.{fnc1_number, is_alone};

use crate::codeword::{Codeword, FNC1, meaning};
use crate::contents::content::ContentIn;
use crate::contents::normal_form::head_words_length;
use crate::extent::Extent;

/// Whether FNC1 behind a codeword with this meaning, and before so many others, is in ASCII encodation: no run or
/// segment takes it, nor does an Upper Shift or a designator.
fn is_alone(meaning: Option<Codeword>, after: usize) -> bool
    ensures { result ≡ is_alone meaning after }
{
    match meaning {
        Some(Codeword::Character(_) | Codeword::Digits(_) | Codeword::Fnc1 | Codeword::Macro(_)) =>
            true,
        Some(Codeword::Latch(_)) => after == 0,
        Some(Codeword::Edifact) => after <= 1,
        _ => false,
    }
}

/// Gives 2 where the first of these codewords, which stand behind a head, is FNC1, 3 where the second one is, and 1
/// where neither is.
fn fnc1_number(words: &[u8]) -> u8
    ensures value { result ≡ fnc1_number words.now }
    ensures least { 1 ≤ result }
    ensures most { result ≤ 3 }
{
    match words {
        [] => 1,
        [first] => { if *first == FNC1 { 2 } else { 1 } }
        [first, second, after @ ..] => {
            if *first == FNC1 {
                2
            } else if *second == FNC1 && is_alone(meaning(*first), after.len()) {
                3
            } else {
                1
            }
        }
    }
}

/// Gives the number of the symbology identifier, which is `]d` and this number, of data codewords that say this content
/// (ISO/IEC 15424; ISO/IEC 16022, symbology identifiers): 2 where the first codeword behind the head is FNC1, 3 where
/// the second one is, in ASCII encodation, and 1 where neither is; where the content has a mark it is 3 more, 4 to 6.
/// Codewords count, and not items: FNC1 that a run spells changes nothing. So the number belongs to the codewords, and
/// others that say the same content may have another one.
pub fn symbology_number<const ROOM: usize, const MARKS: usize>(
    words: &[u8],
    content: &ContentIn<ROOM, MARKS>,
) -> u8
    requires { Says Extent.Wide words.now content.now }
    ensures identifier { IsIdentifier words.now content.now result }
    ensures least { 1 ≤ result }
    ensures most { result ≤ 6 }
{
    let number = fnc1_number(&words[head_words_length(content.head())..]);
    if content.marks().is_empty() {
        number
    } else {
        number + 3
    }
}
