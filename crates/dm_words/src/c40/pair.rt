//! The pairs of a run: two codewords for three values.

ghost use Rattle.std.specs.Prelude.{◌≡◌, ◌+◌, ◌≤◌, ◌*◌, ◌++◌, ◌∷◌, [], length, take, drop, All};
ghost use Rattle.dm_words.specs.inner.Scan.Walk.{flat};
ghost use Rattle.dm_words.specs.inner.Scan.Prefixes.{first_pair, pair_by, pairs_in};
ghost use Rattle.dm_words.specs.Values.{IsRunValue};
ghost use Rattle.dm_words.specs.inner.Scan.Results.{GivesPair};

use crate::codeword::UNLATCH;
use crate::held::add;
use crate::numbers::number_at;
use dm_layout::symbols::MOST_DATA;

/// Why no further pair follows: the next codeword is the unlatch, fewer than two codewords are left, or their number is
/// 0 or more than 64000.
#[derive(Clone, Copy)]
pub enum PairsEnd {
    Unlatch,
    SymbolEnd,
    BadPair,
}

/// The three values of a pair, or why there is none.
#[derive(Clone, Copy)]
pub enum Pair {
    Values(u8, u8, u8),
    Stops(PairsEnd),
}

/// Gives the pair at an index.
fn pair_at(words: &[u8], at: usize) -> Pair
    requires { at ≤ length words.now }
    ensures { GivesPair result (first_pair at (drop at words.now)) }
{
    let Some(high) = number_at(words, at) else {
        return Pair::Stops(PairsEnd::SymbolEnd);
    };
    if high == UNLATCH {
        return Pair::Stops(PairsEnd::Unlatch);
    }
    let Some(low) = number_at(words, at + 1) else {
        return Pair::Stops(PairsEnd::SymbolEnd);
    };
    let number = high as u16 * 256 + low as u16;
    pair_of(number)
}

/// Gives the pair of a number.
fn pair_of(number: u16) -> Pair
    ensures { GivesPair result (pair_by number) }
{
    if number == 0 || number > 64000 {
        return Pair::Stops(PairsEnd::BadPair);
    }
    let n = number - 1;
    Pair::Values((n / 1600) as u8, (n / 40 % 40) as u8, (n % 40) as u8)
}

/// Adds three values to the list.
fn push_values(first: u8, second: u8, third: u8, values: &mut [u8], held: &mut usize)
    requires { held.old + 3 ≤ length values.old }
    ensures added { take held.new values.new
        ≡ take held.old values.old ++ first ∷ second ∷ third ∷ [] }
    ensures counted { held.new ≡ held.old + 3 }
{
    add(first, values, held);
    add(second, values, held);
    add(third, values, held);
}

/// The number of the codewords of all pairs of a run and of their values, and why no further pair follows.
#[derive(Clone, Copy)]
pub struct Pairs {
    pub word_count: usize,
    pub value_count: usize,
    pub end: PairsEnd,
}

/// Writes the values of the pairs that the words begin with to the beginning of the list.
pub(crate) fn pairs_to(words: &[u8], values: &mut [u8]) -> Pairs
    requires short { length words.now ≤ MOST_DATA }
    requires room { 3 * length words.now ≤ 2 * length values.old }
    ensures values { take result.value_count values.new ≡ flat (pairs_in words.now).taken }
    ensures word_count { result.word_count ≡ (pairs_in words.now).place }
    ensures end { result.end ≡ (pairs_in words.now).why }
    ensures small { All IsRunValue (take result.value_count values.new) }
    ensures within { result.word_count ≤ length words.now }
    ensures three_of_two { 2 * result.value_count ≡ 3 * result.word_count }
{
    let mut at = 0;
    let mut held = 0;
    loop {
        match pair_at(words, at) {
            Pair::Values(first, second, third) => {
                push_values(first, second, third, values, &mut held);
                at += 2;
            }
            Pair::Stops(end) => {
                return Pairs {
                    word_count: at,
                    value_count: held,
                    end,
                };
            }
        }
    }
}
