//! Which code sets have a byte as one value, as bits, and the choice of lanes by them.

ghost use Rattle.std.specs.Prelude.{◌≡◌, bit_and, map, nat_eq, not};
ghost use Rattle.std.specs.Simd.Lanes.{sel_l};
ghost use Rattle.dm_words.specs.inner.CostLanes.{byte_sets, read_bits};

use crate::extent::Extent;
use std::simd::prelude::*;

/// The sets that have each byte as one value, as bits: C40 has weight 1, Text 2, X12 4 and EDIFACT 8. One look here
/// takes the place of comparisons whose outcome, from one byte of a text to the next, the processor can't foresee.
#[rattlefmt::skip]
static SETS: [u8; 256] = [
    0, 0, 0, 0, 0, 0, 0, 0, 0, 0, 0, 0, 0, 4, 0, 0,
    0, 0, 0, 0, 0, 0, 0, 0, 0, 0, 0, 0, 0, 0, 0, 0,
    15, 8, 8, 8, 8, 8, 8, 8, 8, 8, 12, 8, 8, 8, 8, 8,
    15, 15, 15, 15, 15, 15, 15, 15, 15, 15, 8, 8, 8, 8, 12, 8,
    8, 13, 13, 13, 13, 13, 13, 13, 13, 13, 13, 13, 13, 13, 13, 13,
    13, 13, 13, 13, 13, 13, 13, 13, 13, 13, 13, 8, 8, 8, 8, 0,
    0, 2, 2, 2, 2, 2, 2, 2, 2, 2, 2, 2, 2, 2, 2, 2,
    2, 2, 2, 2, 2, 2, 2, 2, 2, 2, 2, 0, 0, 0, 0, 0,
    0, 0, 0, 0, 0, 0, 0, 0, 0, 0, 0, 0, 0, 0, 0, 0,
    0, 0, 0, 0, 0, 0, 0, 0, 0, 0, 0, 0, 0, 0, 0, 0,
    0, 0, 0, 0, 0, 0, 0, 0, 0, 0, 0, 0, 0, 0, 0, 0,
    0, 0, 0, 0, 0, 0, 0, 0, 0, 0, 0, 0, 0, 0, 0, 0,
    0, 0, 0, 0, 0, 0, 0, 0, 0, 0, 0, 0, 0, 0, 0, 0,
    0, 0, 0, 0, 0, 0, 0, 0, 0, 0, 0, 0, 0, 0, 0, 0,
    0, 0, 0, 0, 0, 0, 0, 0, 0, 0, 0, 0, 0, 0, 0, 0,
    0, 0, 0, 0, 0, 0, 0, 0, 0, 0, 0, 0, 0, 0, 0, 0,
];

/// The bits of all sets, and of those that the usual extent reads.
const ALL_SETS: u16 = 15;

const USUAL_SETS: u16 = 7;

/// Gives the sets that have a byte as one value, as bits.
#[inline]
pub(crate) fn sets_of(byte: u8) -> u16
    ensures { result ≡ byte_sets byte }
{
    u16::from(SETS[byte as usize])
}

/// Gives the sets of which an extent reads runs, as bits.
#[inline]
pub(crate) fn sets_read(extent: Extent) -> u16
    ensures { result ≡ read_bits extent }
{
    match extent {
        Extent::Wide => ALL_SETS,
        Extent::Usual => USUAL_SETS,
    }
}

/// Gives in each lane what `inside` has there, where the lane's bit is one of these sets', and else what `outside` has.
/// Both are computed, and none is jumped to.
#[inline]
pub(crate) fn by_sets(
    sets: u16,
    bits: [u16; 8],
    inside: Simd<u16, 8>,
    outside: Simd<u16, 8>,
) -> Simd<u16, 8>
    ensures { result ≡ sel_l (map (λ bit. not (nat_eq (bit_and sets bit) 0)) bits) inside outside }
{
    let shared = u16x8::splat(sets) & u16x8::from_array(bits);
    shared.simd_ne(u16x8::splat(0)).select(inside, outside)
}
