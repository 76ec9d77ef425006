//! What it costs to write all that follows an item, for each state of writing, in lanes.

ghost use Rattle.std.specs.Prelude.{◌≡◌, ℕ, ◌+◌, ◌≤◌, ◌<◌, if◌then◌else◌};
ghost use Rattle.std.specs.Prelude.{Bool, true};
ghost use Rattle.dm_words.specs.inner.Costs.{Pairs, Groups, Going, Row, no_pairs, no_groups, values_before, never};
ghost use Rattle.dm_words.specs.declared.c40.set.CodeSet.TheVariants.{C40, Text, X12};
ghost use Rattle.dm_words.specs.inner.Costs.{stay, stay_edifact};
ghost use Rattle.dm_words.specs.inner.Costs.{unit_cost, set_values, has_edifact, leave, going_over};
ghost use Rattle.dm_words.specs.inner.Costs.{with_ascii, none_going, rest_behind};
ghost use Rattle.dm_words.specs.inner.Costs.{IsWithin, AreSmall};
ghost use Rattle.dm_words.specs.inner.CostLanes.{read_edifact, one_or_two};
ghost use Rattle.dm_words.specs.inner.CostLanes.{end_lanes, limit_lanes, set_bits};
ghost use Rattle.dm_words.specs.inner.CostLanes.{first_lanes, second_lanes, AreFirst, AreSecond, HasRow, HasGoing};

use crate::extent::Extent;
use crate::item::Item;
use crate::smallest::sets::{by_sets, sets_of, sets_read};
use std::simd::prelude::*;

/// More than any cost. What can't be written costs this much, or more.
pub const NEVER: u16 = 16384;

/// The costs from an item on.
#[derive(Clone, Copy)]
pub struct Costs {
    /// In ASCII.
    pub ascii: u16,
    /// In ASCII, from the next item on.
    pub after: u16,
    /// In runs where so many values of a pair stand already and are paid: of C40 with none, one and two, then of Text;
    /// then in a segment of Base 256 whose length is written out, or before it ends; and in one up to the end.
    pub first: Simd<u16, 8>,
    /// In runs of X12 with none, one and two values; then of EDIFACT with none to three; and 0.
    pub second: Simd<u16, 8>,
    /// How many bytes follow at least in a segment whose length is written out, 0 where it ends.
    pub near: u16,
}

/// The costs where runs and segments go on over an item, in the same lanes.
#[derive(Clone, Copy)]
pub struct GoingCosts {
    /// In runs of C40 and Text, and in segments.
    pub first: Simd<u16, 8>,
    /// In runs of X12 and EDIFACT.
    pub second: Simd<u16, 8>,
    /// The fewest bytes with which the cost of a segment whose length is written out is met.
    pub near: u16,
}

/// The bit of the set to whose runs each of the first costs belongs; segments have none.
const FIRST_SETS: [u16; 8] = [1, 1, 1, 2, 2, 2, 0, 0];

/// The bit of the set to whose runs each of the second costs belongs.
const SECOND_SETS: [u16; 8] = [4, 4, 4, 8, 8, 8, 8, 0];

/// Gives the first costs before a byte that is one value in C40 and in Text, from those behind it.
#[inline]
fn first_over_one(next: Simd<u16, 8>) -> Simd<u16, 8>
    ensures { (c t : Pairs) (bytes rest : ℕ) → AreFirst 40000 c t bytes rest next
        → result ≡ first_lanes (values_before 1 c) (values_before 1 t) (1 + bytes) (1 + rest) }
{
    next.swizzle([1, 2, 0, 4, 5, 3, 6, 7]) + u16x8::from_array([2, 0, 0, 2, 0, 0, 1, 1])
}

/// Gives the first costs before a byte that is two values in C40 and in Text, from those behind it.
#[inline]
fn first_over_two(next: Simd<u16, 8>) -> Simd<u16, 8>
    ensures { (c t : Pairs) (bytes rest : ℕ) → AreFirst 40000 c t bytes rest next
        → result ≡ first_lanes (values_before 2 c) (values_before 2 t) (1 + bytes) (1 + rest) }
{
    next.swizzle([2, 0, 1, 5, 3, 4, 6, 7]) + u16x8::from_array([2, 0, 2, 2, 0, 2, 1, 1])
}

/// Gives the first costs before a byte that these sets have as one value, from those behind it.
#[inline]
fn first_over(sets: u16, next: Simd<u16, 8>) -> Simd<u16, 8>
    ensures { (c t : Pairs) (bytes rest : ℕ) (in_c40 in_text in_x12 in_edifact : Bool)
        → sets ≡ set_bits in_c40 in_text in_x12 in_edifact → AreFirst 40000 c t bytes rest next
        → result ≡ first_lanes (values_before (one_or_two in_c40) c)
        (values_before (one_or_two in_text) t) (1 + bytes) (1 + rest) }
{
    by_sets(sets, FIRST_SETS, first_over_one(next), first_over_two(next))
}

/// Gives the first costs before an Upper Shift, from those behind it.
#[inline]
fn first_raised(next: Simd<u16, 8>) -> Simd<u16, 8>
    ensures { (c t : Pairs) (bytes rest : ℕ) → AreFirst 40000 c t bytes rest next
        → result ≡ first_lanes (values_before 2 c) (values_before 2 t) bytes rest }
{
    next.swizzle([2, 0, 1, 5, 3, 4, 6, 7]) + u16x8::from_array([2, 0, 2, 2, 0, 2, 0, 0])
}

/// Gives the first costs before FNC1, from those behind it.
#[inline]
fn first_over_fnc1(next: Simd<u16, 8>) -> Simd<u16, 8>
    ensures { (c t : Pairs) (bytes rest : ℕ) → AreFirst 40000 c t bytes rest next
        → result ≡ first_lanes (values_before 2 c) (values_before 2 t) never never }
{
    next.shuffle(u16x8::splat(NEVER), [2, 0, 1, 5, 3, 4, 8, 8])
        + u16x8::from_array([2, 0, 2, 2, 0, 2, 0, 0])
}

/// Gives the second costs where no run goes on.
#[inline]
fn no_second() -> Simd<u16, 8>
    ensures { result ≡ second_lanes no_pairs no_groups }
{
    u16x8::from_array([NEVER, NEVER, NEVER, NEVER, NEVER, NEVER, NEVER, 0])
}

/// Gives the second costs before a byte that X12 has and EDIFACT, from those behind it.
#[inline]
fn second_over_each(next: Simd<u16, 8>) -> Simd<u16, 8>
    ensures { (x : Pairs) (e : Groups) → AreSecond x e next
        → result ≡ second_lanes (stay 1 x) (stay_edifact true e) }
{
    next.swizzle([1, 2, 0, 4, 5, 6, 3, 7]) + u16x8::from_array([2, 0, 0, 1, 1, 1, 0, 0])
}

/// Gives the second costs before a byte that these sets have as one value, from those behind it.
#[inline]
fn second_over(extent: Extent, sets: u16, next: Simd<u16, 8>) -> Simd<u16, 8>
    ensures { (x : Pairs) (e : Groups) (in_c40 in_text in_x12 in_edifact : Bool)
        → sets ≡ set_bits in_c40 in_text in_x12 in_edifact → AreSecond x e next
        → result ≡ second_lanes (stay (if in_x12 then 1 else 0) x)
        (stay_edifact (read_edifact extent in_edifact) e) }
{
    by_sets(
        sets & sets_read(extent),
        SECOND_SETS,
        second_over_each(next),
        no_second(),
    )
}

/// Gives the first costs before a byte, from those behind it.
#[inline]
fn first_over_byte(byte: u8, next: Simd<u16, 8>) -> Simd<u16, 8>
    ensures { (c t : Pairs) (bytes rest : ℕ) → AreFirst 39990 c t bytes rest next
        → result ≡ first_lanes (stay (set_values C40 (Item.Byte byte)) c)
        (stay (set_values Text (Item.Byte byte)) t) (1 + bytes) (1 + rest) }
{
    if byte < 128 {
        return first_over(sets_of(byte), next);
    }
    first_over(sets_of(byte - 128), first_raised(next))
}

/// Gives the second costs before a byte, from those behind it.
#[inline]
fn second_over_byte(extent: Extent, byte: u8, next: Simd<u16, 8>) -> Simd<u16, 8>
    ensures { (x : Pairs) (e : Groups) → AreSecond x e next
        → result ≡ second_lanes (stay (set_values X12 (Item.Byte byte)) x)
        (stay_edifact (has_edifact extent (Item.Byte byte)) e) }
{
    second_over(extent, sets_of(byte), next)
}

/// Gives the costs where runs and segments go on over an item, from those behind it.
#[inline]
pub(crate) fn going_over(extent: Extent, item: Item, next: &Costs) -> GoingCosts
    requires { next.now.near ≤ 16384 }
    ensures { (r : Row) → IsWithin 3200 r → HasRow r next.now
        → HasGoing (going_over extent item r) result }
{
    match item {
        Item::Fnc1 => GoingCosts {
            first: first_over_fnc1(next.first),
            second: no_second(),
            near: 0,
        },
        Item::Byte(byte) => GoingCosts {
            first: first_over_byte(byte, next.first),
            second: second_over_byte(extent, byte, next.second),
            near: 1 + next.near,
        },
    }
}

/// What a lane holds that is no end, which is more than any cost.
const NO_END: u16 = u16::MAX;

/// In which lanes a run or a segment ends.
const ENDS: [u16; 8] = [1, 0, 0, 1, 0, 0, 1, 0];

/// Gives the costs of ending where what follows costs this much: an unlatch is added to those that are more than the
/// limit of the lane.
#[inline]
fn ends_by(limits: [u16; 8], cost: u16) -> Simd<u16, 8>
    requires { cost ≤ 16384 }
    ensures { (run group : ℕ) → limits ≡ limit_lanes run group
        → result ≡ end_lanes (leave run cost) (leave group cost) cost }
{
    let all = u16x8::splat(cost);
    let left = all
        .simd_gt(u16x8::from_array(limits))
        .select(all + u16x8::splat(1), all);
    u16x8::from_array(ENDS)
        .simd_ne(u16x8::splat(0))
        .select(left, u16x8::splat(NO_END))
}

/// Gives the first costs where a run or a segment ends before what costs this much.
#[inline]
pub(crate) fn first_ends(cost: u16) -> Simd<u16, 8>
    requires { cost ≤ 16384 }
    ensures { result ≡ end_lanes (leave 1 cost) (leave 1 cost) cost }
{
    ends_by([1, 0, 0, 1, 0, 0, NO_END, 0], cost)
}

/// Gives the second costs where a run ends before what costs this much.
#[inline]
pub(crate) fn second_ends(cost: u16) -> Simd<u16, 8>
    requires { cost ≤ 16384 }
    ensures { result ≡ end_lanes (leave 1 cost) (leave 2 cost) cost }
{
    ends_by([1, 0, 0, 2, 0, 0, NO_END, 0], cost)
}

/// Gives the costs from an item on, from the cost in ASCII, that from the next item on, and those where runs go on.
#[inline]
pub(crate) fn with_ascii(cost: u16, after: u16, going: &GoingCosts) -> Costs
    requires { cost ≤ 16384 }
    ensures { (g : Going) → AreSmall g → HasGoing g going.now
        → HasRow (with_ascii cost after g) result }
{
    Costs {
        ascii: cost,
        after,
        first: going.first.simd_min(first_ends(cost)),
        second: going.second.simd_min(second_ends(cost)),
        near: if cost <= going.first.to_array()[6] {
            0
        } else {
            going.near
        },
    }
}

/// Gives the first costs where no run goes on, and a segment up to the end only where no codeword follows.
fn no_first(behind: u16) -> Simd<u16, 8>
    ensures { result ≡ first_lanes no_pairs no_pairs never (rest_behind behind) }
{
    let rest = if behind == 0 { 0 } else { NEVER };
    u16x8::from_array([NEVER, NEVER, NEVER, NEVER, NEVER, NEVER, NEVER, rest])
}

/// Gives what goes on behind the last item, where so many codewords follow: nothing.
pub(crate) fn none_going(behind: u16) -> GoingCosts
    ensures { HasGoing (none_going behind) result }
{
    GoingCosts {
        first: no_first(behind),
        second: no_second(),
        near: 0,
    }
}

/// Gives the number of the codewords of an item by itself.
pub(crate) fn unit_cost(item: Item) -> u16
    ensures cost { result ≡ unit_cost item }
    ensures few { result ≤ 2 }
{
    match item {
        Item::Fnc1 => 1,
        Item::Byte(byte) => 1 + u16::from(byte / 128),
    }
}
