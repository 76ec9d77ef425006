//! The cells at the start of some text, up to 128 at once.

ghost use Rattle.std.specs.Prelude.{◌≡◌, ◌==◌, ◌<◌, ◌≤◌, ◌+◌, ◌∷◌, ◌++◌, [], ℕ, Bool, false, map, not, List, IfSome};
ghost use Rattle.std.specs.Prelude.{length, take};
ghost use Rattle.std.specs.Simd.Lanes.{mask_l};
ghost use Rattle.std.specs.List.{prefix_len};
ghost use Rattle.std.specs.Int.Bits.{bit_or};
ghost use Rattle.dm_text.specs.Records.{is_foreign};
ghost use Rattle.dm_text.specs.Texts.{HasNoLf, lf};
ghost use Rattle.dm_text.specs.inner.OpenRecords.{AreCells, AreFirstCells, IsFirstLine, is_dark, padded_block};

use crate::text::LF;
use std::simd::prelude::*;

/// This many characters are compared together: with its LF, a whole line of the smaller sizes.
pub(crate) const BLOCK: usize = 32;

/// Fewer characters than this are taken one by one: they aren't worth the copy that would make a block of them.
const FEW: usize = 8;

/// This many blocks can be looked at together: with its LF, a whole line of the largest size.
const BLOCKS_OF_A_LINE: usize = 4;

/// Some cells of a row: characters 0 and 1 that follow one another.
#[derive(Clone, Copy)]
pub(crate) struct RowPart {
    /// The cell of the character `c`, counted from 0, is the bit of weight 2^c, 1 for dark.
    pub(crate) bits: u128,
    /// How many cells there are: 1 to 128.
    pub(crate) count: u16,
}

impl RowPart {
    /// Gives the cell of one character.
    pub(crate) fn of_character(character: u8) -> RowPart
        requires { is_foreign character ≡ false }
        ensures { AreCells (character ∷ []) result }
    {
        RowPart {
            bits: u128::from(character == b'1'),
            count: 1,
        }
    }

    /// Gives cells at the start of a text, as many as can be looked at together: at most 128, and none behind another
    /// byte. How many they are, and when there is None, no clause says, since it matters for speed alone: None comes
    /// where the first byte is no cell, or where only a few bytes have come.
    pub(crate) fn of_text(text: &[u8]) -> Option<RowPart>
        ensures { IfSome result (λ cells. AreFirstCells text.now cells) }
    {
        let Some(mut cells) = RowPart::of_block(text) else {
            return None;
        };
        for block in 1..BLOCKS_OF_A_LINE {
            if usize::from(cells.count) < block * BLOCK {
                break;
            }
            let Some(next) = RowPart::of_block(&text[block * BLOCK..]) else {
                break;
            };
            cells = cells.join(next);
        }
        Some(cells)
    }

    /// Gives the cells at the start of a text as far as its first 32 bytes.
    #[inline(always)]
    fn of_block(text: &[u8]) -> Option<RowPart>
        ensures cells { IfSome result (λ cells. AreFirstCells text.now cells) }
        ensures few { IfSome result (λ cells. cells.count ≤ BLOCK) }
    {
        if text.len() < FEW {
            return None;
        }
        let block = first_bytes(text);
        let count = cell_count(block);
        if count == 0 {
            return None;
        }
        Some(first_cells(block, count))
    }

    /// Gives the line at the start of a text, if it has so many cells and LF comes after them. How many bytes have to
    /// have come matters for speed alone: None comes where they are at most 32.
    #[inline(always)]
    pub(crate) fn of_line(text: &[u8], count: u16) -> Option<RowPart>
        requires some { 1 ≤ count }
        requires few { count ≤ BLOCK }
        ensures count { IfSome result (λ line. line.count ≡ count) }
        ensures line { IfSome result (λ line. IsFirstLine text.now line) }
    {
        if text.len() <= BLOCK || text[usize::from(count)] != LF {
            return None;
        }
        let block = u8x32::from_slice(text);
        if cell_count(block) < u32::from(count) {
            return None;
        }
        Some(first_cells(block, u32::from(count)))
    }

    /// Gives these cells, with others after them.
    fn join(self, next: RowPart) -> RowPart
        requires room { self.count + next.count ≤ 128 }
        requires some { (more : List ℕ) × AreCells more next }
        ensures { (characters more : List ℕ) → AreCells characters self → AreCells more next
            → AreCells (characters ++ more) result }
    {
        RowPart {
            bits: self.bits | next.bits << self.count,
            count: self.count + next.count,
        }
    }
}

/// Gives the first 32 bytes of a text, with zeros behind them where it has fewer.
#[inline(always)]
fn first_bytes(text: &[u8]) -> u8x32
    ensures { result ≡ padded_block text.now }
{
    if text.len() >= BLOCK {
        u8x32::from_slice(text)
    } else {
        last_bytes(text)
    }
}

/// Gives the bytes of a text that has fewer than 32, with zeros behind them.
#[inline(never)]
fn last_bytes(text: &[u8]) -> u8x32
    requires { length text.now < BLOCK }
    ensures { result ≡ padded_block text.now }
{
    let mut block = [0; BLOCK];
    block[..text.len()].copy_from_slice(text);
    u8x32::from_array(block)
}

/// Gives the first cells of a block, at least one of them.
#[inline(always)]
fn first_cells(block: u8x32, count: u32) -> RowPart
    requires some { 1 ≤ count }
    requires cells { count ≤ prefix_len (λ b. bit_or b 1 == 49) block }
    ensures count { result.count ≡ count }
    ensures cells { AreCells (take count block) result }
{
    RowPart {
        bits: u128::from(dark_bits(block) & ((1 << count) - 1)),
        count: count as u16,
    }
}

/// Gives how many bytes stand at the start of a text before LF, as far as its first 32 bytes; 0 where only a few bytes
/// have come.
pub(crate) fn characters_of_line(text: &[u8]) -> usize
    ensures within { result ≤ length text.now }
    ensures no_lf { HasNoLf (take result text.now) }
{
    if text.len() < FEW {
        return 0;
    }
    let count = lanes_before(lf_bits(first_bytes(text)));
    text.len().min(count as usize)
}

/// Gives the ends of lines in a block: 1 for LF.
#[inline]
fn lf_bits(block: u8x32) -> u64
    ensures { result ≡ mask_l (map (λ b. b == lf) block) }
{
    block.simd_eq(u8x32::splat(LF)).to_bitmask()
}

/// Gives the dark cells of a block: 1 for the character 1.
#[inline]
fn dark_bits(block: u8x32) -> u64
    ensures { result ≡ mask_l (map is_dark block) }
{
    block.simd_eq(u8x32::splat(b'1')).to_bitmask()
}

/// Gives the other characters of a block: 0 for 0 and 1, which are the two that differ from 1 in the lowest bit at
/// most.
#[inline]
fn other_bits(block: u8x32) -> u64
    ensures { result ≡ mask_l (map (λ b. not (bit_or b 1 == 49)) block) }
{
    (block | u8x32::splat(1))
        .simd_ne(u8x32::splat(b'1'))
        .to_bitmask()
}

/// Gives how many characters 0 and 1 stand at the start of a block.
#[inline]
fn cell_count(block: u8x32) -> u32
    ensures { result ≡ prefix_len (λ b. bit_or b 1 == 49) block }
{
    lanes_before(other_bits(block))
}

/// Gives how many bytes of a block stand before the first one that a mask marks: all 32 where it marks none.
#[inline(always)]
fn lanes_before(marks: u64) -> u32
    ensures { (p : ℕ → Bool) (block : List ℕ) → length block ≡ BLOCK → marks ≡ mask_l (map p block)
        → result ≡ prefix_len (λ b. not (p b)) block }
{
    if marks == 0 {
        BLOCK as u32
    } else {
        marks.trailing_zeros()
    }
}
