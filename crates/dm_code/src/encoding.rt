//! The check codewords of a block, and what is left of a word when it is divided as for them.

ghost use Rattle.std.specs.Prelude.{◌≡◌, ◌+◌, ◌%◌, ◌<◌, ◌≤◌, ◌++◌, ℕ, List, length, suc, get_or, take};
ghost use Rattle.gf301.specs.Field.{◌⊕◌, ◌⊗◌, power, raise};
ghost use Rattle.gf301.specs.Generator.{generator};
ghost use Rattle.gf301.specs.Polynomial.{Bytes, coefficient, value};
ghost use Rattle.dm_code.specs.Codeword.{IsCodeword};
ghost use Rattle.dm_code.specs.Syndromes.{syndromes_of};

use crate::limits::LONGEST_WORD;
use arrayvec::ArrayVec;
use gf301::{CHECKS_ROOM, MOST_CHECKS, add_scaled, scale, taps};
use std::simd::prelude::*;

/// Room for what a division leaves, and behind it for the sixteen zeros that move down into its last lanes.
const LEFT_ROOM: usize = CHECKS_ROOM + 16;

/// The lanes of two vectors, one behind the other, that are the first one's when all move down by two.
const MOVED_BY_TWO: [usize; 16] = [2, 3, 4, 5, 6, 7, 8, 9, 10, 11, 12, 13, 14, 15, 16, 17];

/// Gives the k check codewords of the data codewords `front`, k of 1 to [`MOST_CHECKS`], where both together are at
/// most [`LONGEST_WORD`]: the one list of k codewords that completes `front` to a codeword of k checks.
pub fn encode(front: &[u8], k: usize) -> ArrayVec<u8, MOST_CHECKS>
    requires some { 1 ≤ k }
    requires most { k ≤ MOST_CHECKS }
    requires room { length front.now + k ≤ LONGEST_WORD }
    ensures count { length result.items ≡ k }
    ensures bytes { Bytes result.items }
    ensures completes { IsCodeword k (front.now ++ result.items) }
    ensures only { (c : List ℕ) → length c ≡ k → IsCodeword k (front.now ++ c)
        → c ≡ result.items }
{
    let left = divide(front, k);
    let mut checks = ArrayVec::new();
    let _room = checks.try_extend_from_slice(&left[..k]);
    checks
}

/// Gives what is left of a word when it is divided by the generator for k check codewords, k of 1 to [`MOST_CHECKS`]: k
/// numbers, with the same syndromes as the word, and zeros behind them.
pub(crate) fn remainder(word: &[u8], k: usize) -> [u8; LEFT_ROOM]
    requires some { 1 ≤ k }
    requires most { k ≤ MOST_CHECKS }
    requires whole { k ≤ length word.now }
    ensures same { syndromes_of (take k result) k ≡ syndromes_of word.now k }
    ensures past { (i : ℕ) → k ≤ i → get_or result i 0 ≡ 0 }
{
    let (front, checks) = word.split_at(word.len() - k);
    let mut rest = divide(front, k);
    let mut last = [0; LEFT_ROOM];
    last[..k].copy_from_slice(checks);
    for i in 0..LEFT_ROOM {
        rest[i] ^= last[i];
    }
    rest
}

/// Divides `front`, as a polynomial, by the generator for k check codewords, with k zeros behind it: gives the k
/// numbers that are left, and zeros behind them.
fn divide(front: &[u8], k: usize) -> [u8; LEFT_ROOM]
    requires some { 1 ≤ k }
    requires most { k ≤ MOST_CHECKS }
    ensures bytes { (i : ℕ) → get_or result i 0 < 256 }
    ensures same { (i : ℕ) → i < k
        → value front.now (power (1 + i)) ⊗ raise (power (1 + i)) k
        ≡ value (take k result) (power (1 + i)) }
    ensures past { (i : ℕ) → k ≤ i → get_or result i 0 ≡ 0 }
{
    match k.div_ceil(16) {
        1 => divide_in::<16>(front, k),
        2 => divide_in::<32>(front, k),
        3 => divide_in::<48>(front, k),
        4 => divide_in::<64>(front, k),
        _ => divide_in::<CHECKS_ROOM>(front, k),
    }
}

/// Does what [`divide`] does, in `WIDTH` numbers: k, and what is missing to a multiple of 16. The numbers are a
/// register that takes in `front` from its first number on, and keeps what is left of what it has taken in. The
/// compiler has a loop for each width, in which the register and the generator's coefficients stay in lanes. Two
/// numbers are taken in at once, since each step waits for what the one before it left.
fn divide_in<const WIDTH: usize>(front: &[u8], k: usize) -> [u8; LEFT_ROOM]
    requires lanes { WIDTH % 16 ≡ 0 }
    requires enough { k ≤ WIDTH }
    requires tight { WIDTH < k + 16 }
    requires some { 1 ≤ k }
    requires most { k ≤ MOST_CHECKS }
    ensures bytes { (i : ℕ) → get_or result i 0 < 256 }
    ensures same { (i : ℕ) → i < k
        → value front.now (power (1 + i)) ⊗ raise (power (1 + i)) k
        ≡ value (take k result) (power (1 + i)) }
    ensures past { (i : ℕ) → k ≤ i → get_or result i 0 ≡ 0 }
{
    let mut left = [0; LEFT_ROOM];
    let odd = front.len() % 2;
    if odd == 1 {
        take_one::<WIDTH>(&mut left, front[0], k);
    }
    let row = row_after::<WIDTH>(taps(k));
    for pair in 0..front.len() / 2 {
        let place = odd + 2 * pair;
        take_two::<WIDTH>(&mut left, front[place], front[place + 1], k, &row);
    }
    left
}

/// Takes the first number into a register that holds zeros.
#[inline]
fn take_one<const WIDTH: usize>(left: &mut [u8; LEFT_ROOM], first: u8, k: usize)
    requires lanes { WIDTH % 16 ≡ 0 }
    requires enough { k ≤ WIDTH }
    requires most { k ≤ MOST_CHECKS }
    requires narrow { WIDTH ≤ CHECKS_ROOM }
    requires zeros { (i : ℕ) → get_or left.old i 0 ≡ 0 }
    ensures long { length left.new ≡ LEFT_ROOM }
    ensures each { (i : ℕ) → get_or left.new i 0 ≡ first ⊗ coefficient (generator k) (suc i) }
{
    add_scaled(&mut left[..WIDTH], first, taps(k));
}

/// Takes two numbers into a register, which holds zeros behind its k numbers: all move down by two places, and the
/// multiples of the generator are added that take away what stood in front. What the first of them leaves of the second
/// is taken into account by `row`, which is that of [`row_after`].
#[inline]
fn take_two<const WIDTH: usize>(
    left: &mut [u8; LEFT_ROOM],
    first: u8,
    second: u8,
    k: usize,
    row: &[u8; CHECKS_ROOM],
)
    requires lanes { WIDTH % 16 ≡ 0 }
    requires enough { k ≤ WIDTH }
    requires narrow { WIDTH ≤ CHECKS_ROOM }
    requires most { k ≤ MOST_CHECKS }
    requires past { (i : ℕ) → k ≤ i → get_or left.old i 0 ≡ 0 }
    requires row { (i : ℕ) → i < WIDTH → get_or row.now i 0
        ≡ coefficient (generator k) (suc (suc i))
        ⊕ coefficient (generator k) 1 ⊗ coefficient (generator k) (suc i) }
    ensures long { length left.new ≡ LEFT_ROOM }
    ensures each { (i : ℕ) → get_or left.new i 0
        ≡ get_or left.old (suc (suc i)) 0
        ⊕ ((first ⊕ get_or left.old 0 0) ⊗ (coefficient (generator k) (suc (suc i))
        ⊕ coefficient (generator k) 1 ⊗ coefficient (generator k) (suc i))
        ⊕ (second ⊕ get_or left.old 1 0) ⊗ coefficient (generator k) (suc i)) }
{
    let first = first ^ left[0];
    let second = second ^ left[1];
    move_and_add::<WIDTH>(left, first, row, second, taps(k));
}

/// Gives what is left, in its first `WIDTH` numbers, of the power after that of the generator when it is divided by the
/// generator, of which the taps are given: they are moved up by a place, and what then stands in front is taken away
/// with its multiple.
#[inline]
fn row_after<const WIDTH: usize>(taps: &[u8; CHECKS_ROOM]) -> [u8; CHECKS_ROOM]
    requires lanes { WIDTH % 16 ≡ 0 }
    requires narrow { WIDTH ≤ CHECKS_ROOM }
    ensures long { length taps.now ≡ CHECKS_ROOM }
    ensures each { (i : ℕ) → i < WIDTH → get_or result i 0
        ≡ get_or taps.now (suc i) 0 ⊕ get_or taps.now 0 0 ⊗ get_or taps.now i 0 }
{
    let mut row = [0; CHECKS_ROOM];
    row[..CHECKS_ROOM - 1].copy_from_slice(&taps[1..]);
    add_scaled(&mut row[..WIDTH], taps[0], taps);
    row
}

/// Moves the first `WIDTH` numbers and those behind them down by two places, and adds to them the products of `first`
/// with those of one row and of `second` with those of another, sixteen at a time. Whole vectors are read and written
/// at the places where they stand, so that the compiler keeps them in registers.
#[inline]
fn move_and_add<const WIDTH: usize>(
    left: &mut [u8],
    first: u8,
    row: &[u8],
    second: u8,
    other: &[u8],
)
    requires lanes { WIDTH % 16 ≡ 0 }
    requires room { WIDTH + 16 ≤ length left.old }
    requires row { WIDTH ≤ length row.now }
    requires other { WIDTH ≤ length other.now }
    ensures long { length left.new ≡ length left.old }
    ensures moved { (i : ℕ) → i < WIDTH
        → get_or left.new i 0 ≡ get_or left.old (suc (suc i)) 0
        ⊕ (first ⊗ get_or row.now i 0 ⊕ second ⊗ get_or other.now i 0) }
    ensures kept { (i : ℕ) → WIDTH ≤ i → get_or left.new i 0 ≡ get_or left.old i 0 }
{
    for group in 0..WIDTH / 16 {
        let at = 16 * group;
        let here = u8x16::from_slice(&left[at..]);
        let behind = u8x16::from_slice(&left[at + 16..]);
        let some = scale(first, u8x16::from_slice(&row[at..]));
        let others = scale(second, u8x16::from_slice(&other[at..]));
        let next = here.shuffle(behind, MOVED_BY_TWO) ^ (some ^ others);
        next.copy_to_slice(&mut left[at..]);
    }
}
