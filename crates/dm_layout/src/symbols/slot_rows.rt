//! The codewords of a mapping matrix in their slots, as bytes row by row.
//!
//! A single codeword is read or written as one byte, which stands at the slot's own place, so that no row is looked
//! for. The codewords of a row of anchors are read or written together.

ghost use Rattle.std.specs.Prelude.{◌≡◌, ℕ, ◌<◌, ◌/◌, get_or, length, set, replicate};
ghost use Rattle.dm_layout.specs.symbols.inner.Laying.{with_byte};
ghost use Rattle.dm_layout.specs.symbols.inner.Slots.{in_bytes, slot_byte};

use std::marker::Model;

/// Codewords in `COUNT` slots, `BYTES` in a row, each with its bits in the opposite order. Where no codeword stands
/// there is 0. In contracts each row is one number, whose lowest byte is the first.
#[derive(Drop)]
pub(crate) struct Slots<const BYTES: usize, const COUNT: usize> {
    bytes: [u8; COUNT],
}

impl<const BYTES: usize, const COUNT: usize> Model for Slots<BYTES, COUNT> {
    ghost use Rattle.std.specs.Prelude.{ℕ, ◌<◌, List, get_or};
    ghost use Rattle.dm_layout.specs.symbols.inner.Slots.{slot_numbers, slot_rows};

    ghost Value = { List ℕ };

    ghost view = { λ s. slot_numbers (slot_rows BYTES s.bytes) };

    ghost invariant = { λ s. (i : ℕ) → get_or s.bytes i 0 < 256 };
}

impl<const BYTES: usize, const COUNT: usize> Slots<BYTES, COUNT> {
    /// Gives slots without a codeword.
    #[inline(always)]
    pub(crate) fn empty() -> Slots<BYTES, COUNT>
        requires { 0 < BYTES }
        ensures { result ≡ replicate (COUNT / BYTES) 0 }
    {
        Slots { bytes: [0; COUNT] }
    }

    /// Gives a row of slots.
    #[inline(always)]
    pub(crate) fn row(&self, row: usize) -> [u8; BYTES]
        requires some { 0 < BYTES }
        requires row { row < COUNT / BYTES }
        ensures count { length result ≡ BYTES }
        ensures number { in_bytes result ≡ get_or self.now row 0 }
    {
        let (rows, _rest) = self.bytes.as_chunks::<BYTES>();
        rows[row]
    }

    /// Puts a row of slots.
    #[inline(always)]
    pub(crate) fn put_row(&mut self, row: usize, bytes: [u8; BYTES])
        requires some { 0 < BYTES }
        requires row { row < COUNT / BYTES }
        requires count { length bytes ≡ BYTES }
        requires bytes { (i : ℕ) → get_or bytes i 0 < 256 }
        ensures { self.new ≡ set self.old row (in_bytes bytes.entry) }
    {
        let all = &mut self.bytes[..];
        let start = row * BYTES;
        all[start..start + BYTES].copy_from_slice(&bytes);
    }

    /// Gives the byte of a slot.
    #[inline(always)]
    pub(crate) fn byte(&self, slot: usize) -> u8
        requires some { 0 < BYTES }
        requires row { slot / BYTES < COUNT / BYTES }
        ensures { result ≡ slot_byte BYTES self.now slot }
    {
        self.bytes[slot]
    }

    /// Lays a byte over that of its slot.
    #[inline(always)]
    pub(crate) fn add(&mut self, slot: usize, byte: u8)
        requires some { 0 < BYTES }
        requires row { slot / BYTES < COUNT / BYTES }
        ensures { self.new ≡ with_byte BYTES self.old slot byte }
    {
        self.bytes[slot] |= byte;
    }
}
