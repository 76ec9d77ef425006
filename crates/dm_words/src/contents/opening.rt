//! How a content begins: with a head, with a macro, or with neither.

ghost use Rattle.std.specs.Prelude.{◌≡◌, ◌∷◌, ◌++◌, [], List, length};
ghost use Rattle.dm_words.specs.Codewords.{codeword_of};
ghost use Rattle.dm_words.specs.inner.Scan.Prefixes.{digit_by, begins_with_one_word, is_one_word};
ghost use Rattle.dm_words.specs.inner.ContentScan.{begins_append, first_frame, is_empty_run, opened};

use crate::codeword::{Codeword, Lone, UNLATCH, lone_of, meaning};
use crate::contents::designator::word_at;
use crate::contents::head::{APPEND, Head, first_head, head_length};
use crate::extent::Extent;
use crate::macros::digit_of;

/// What stands before the parts of a content.
#[derive(Clone, Copy)]
pub enum Opening {
    /// Nothing.
    Plain,
    /// A head.
    Headed(Head),
    /// The macro whose header has the digits 0 and this one, as a character, behind empty runs or none.
    Framed(u8),
}

/// An opening that begins some codewords.
#[derive(Clone, Copy)]
pub struct Opened {
    /// What it is.
    pub opening: Opening,
    /// How many codewords it has.
    pub count: usize,
}

/// A macro behind empty runs or none.
#[derive(Clone, Copy)]
pub struct Frame {
    /// How many codewords these are.
    pub count: usize,
    /// The second digit of the macro's header, as a character.
    pub digit: u8,
}

/// Whether a codeword is a latch to C40, Text or X12 and the next one an unlatch.
fn is_empty_run(word: u8, next: Option<u8>) -> bool
    ensures { result ≡ is_empty_run (codeword_of word) next }
{
    match (meaning(word), next) {
        (Some(Codeword::Latch(_)), Some(next)) => next == UNLATCH,
        _ => false,
    }
}

/// Gives the macro with which the words begin, behind empty runs or none, `None` where they begin with none.
fn first_frame(words: &[u8]) -> Option<Frame>
    ensures { result ≡ first_frame words.now }
{
    let mut at = 0;
    while let Some(word) = word_at(words, at) {
        if let Some(digit) = digit_of(word) {
            return Some(Frame {
                count: at + 1,
                digit,
            });
        }
        if !is_empty_run(word, word_at(words, at + 1)) {
            return None;
        }
        at += 2;
    }
    None
}

/// Whether the words begin with structured append.
fn begins_append(words: &[u8]) -> bool
    ensures { result ≡ begins_append words.now }
{
    match word_at(words, 0) {
        Some(word) => word == APPEND,
        None => false,
    }
}

/// Whether a codeword is by itself a character or a pair of digits.
pub(crate) fn is_alone(word: u8) -> bool
    ensures { result ≡ is_one_word (codeword_of word) }
{
    match lone_of(word) {
        Lone::Character(_) | Lone::Digits(_) => true,
        Lone::Other => false,
    }
}

/// Whether the first word is by itself a character or a pair of digits, and so opens nothing.
fn begins_alone(words: &[u8]) -> bool
    ensures { result ≡ begins_with_one_word words.now }
{
    match word_at(words, 0) {
        Some(word) => is_alone(word),
        None => false,
    }
}

/// Gives the opening of the words in an extent, `None` where structured append begins no head. Most begin with a
/// character or a pair of digits, and then nothing else is asked for.
pub(crate) fn opening_of(extent: Extent, words: &[u8]) -> Option<Opened>
    ensures { result ≡ opened extent words.now }
{
    let nothing = Opened {
        opening: Opening::Plain,
        count: 0,
    };
    match extent {
        Extent::Usual => Some(nothing),
        Extent::Wide => {
            if begins_alone(words) {
                return Some(nothing);
            }
            opening_asked(words)
        }
    }
}

/// Does the same for any words, in the wide extent. It stands by itself, so that what is read behind most openings
/// stays short.
#[inline(never)]
fn opening_asked(words: &[u8]) -> Option<Opened>
    ensures { result ≡ opened Extent.Wide words.now }
{
    if let Some(head) = first_head(words) {
        return Some(Opened {
            opening: Opening::Headed(head),
            count: head_length(head),
        });
    }
    if begins_append(words) {
        return None;
    }
    match first_frame(words) {
        Some(frame) => Some(Opened {
            opening: Opening::Framed(frame.digit),
            count: frame.count,
        }),
        None => Some(Opened {
            opening: Opening::Plain,
            count: 0,
        }),
    }
}
