//! What to do at each item, so that the message takes the fewest codewords.

ghost use Rattle.std.specs.Prelude.{◌≡◌, ◌+◌, ◌++◌, ◌*◌, ◌^◌, ◌≤◌, ◌<◌, if◌then◌else◌, ℕ, nat_le, get_or, length};
ghost use Prim.Native.Nat.{min};
ghost use Rattle.std.specs.Prelude.{map, nat_eq, not, replicate, ◌⊎◌};
ghost use Rattle.std.specs.Simd.Lanes.{sel_l, zip2};
ghost use Rattle.dm_words.specs.Ascii.{ascii};
ghost use Rattle.dm_words.specs.Messages.{IsItem, IsMessage};
ghost use Rattle.dm_words.specs.inner.Costs.{unit_cost};
ghost use Rattle.dm_words.specs.inner.Costs.{Row, Going, cost_of, least, step_of, AreSmall};
ghost use Rattle.dm_words.specs.inner.Costs.{parts_cost, is_digit_item, never, begin_at, step_in};
ghost use Rattle.dm_words.specs.inner.Costs.{has_bit};
ghost use Rattle.dm_words.specs.inner.Costs.{IsRightPlan, most_behind};
ghost use Rattle.dm_words.specs.inner.Written.{run_ends};
ghost use Rattle.dm_words.specs.inner.CostLanes.{HasRow, HasGoing, cost_lanes, least_of};

use crate::c40::set::CodeSet;
use crate::item::Item;
use crate::limits::LARGEST_ROOM;
use crate::smallest::row::{
    Costs, GoingCosts, NEVER, first_ends, going_over, none_going, second_ends, unit_cost,
    with_ascii,
};
use crate::smallest::setting::Setting;
use std::simd::prelude::*;

/// What begins at an item, in ASCII.
#[derive(Clone, Copy)]
pub enum Begin {
    /// The item by itself.
    One,
    /// Two digits in one codeword.
    Two,
    /// A run of C40, Text or X12.
    Run(CodeSet),
    /// A run of EDIFACT.
    Edifact,
    /// A segment of Base 256 whose length is written out.
    Segment,
    /// A segment of Base 256 up to the end of the symbol.
    Rest,
}

/// What to do at an item.
#[derive(Clone, Copy)]
pub struct StepBits {
    /// What begins there, in ASCII: a place in the order in which the first of those that are equally cheap is taken.
    pub begins: u8,
    /// Whether a run or a segment that comes so far ends there: with weight 1 one of C40, with 8 one of Text, between
    /// pairs, and with 64 a segment.
    pub first: u8,
    /// Whether a run that comes so far ends there: with weight 1 one of X12, between pairs, with 8 one of EDIFACT,
    /// between groups, and with 64 one of EDIFACT, with an unlatch as the fourth value of a group.
    pub second: u8,
}

impl StepBits {
    /// What stands in a plan before it is made.
    pub const NONE: StepBits = StepBits {
        begins: 0,
        first: 0,
        second: 0,
    };

    /// Gives what begins there, in ASCII.
    pub(crate) fn begin(&self) -> Begin
        ensures { result ≡ (step_in self.now).begins }
    {
        match self.begins {
            0 => Begin::Two,
            1 => Begin::One,
            2 => Begin::Run(CodeSet::C40),
            3 => Begin::Run(CodeSet::Text),
            4 => Begin::Run(CodeSet::X12),
            5 => Begin::Edifact,
            6 => Begin::Segment,
            _ => Begin::Rest,
        }
    }

    /// Whether a run of a set that comes so far ends there, between pairs.
    pub(crate) fn run_ends(&self, set: CodeSet) -> bool
        ensures { result ≡ run_ends set (step_in self.now) }
    {
        match set {
            CodeSet::C40 => has_bit(1, self.first),
            CodeSet::Text => has_bit(8, self.first),
            CodeSet::X12 => has_bit(1, self.second),
        }
    }

    /// Whether a run of EDIFACT that comes so far ends there, between groups.
    pub(crate) fn edifact_ends(&self) -> bool
        ensures { result ≡ (step_in self.now).edifact_ends }
    {
        has_bit(8, self.second)
    }

    /// Whether a run of EDIFACT that comes so far ends there, with an unlatch as the fourth value of a group.
    pub(crate) fn group_ends(&self) -> bool
        ensures { result ≡ (step_in self.now).group_ends }
    {
        has_bit(64, self.second)
    }

    /// Whether a segment that comes so far ends there.
    pub(crate) fn segment_ends(&self) -> bool
        ensures { result ≡ (step_in self.now).segment_ends }
    {
        has_bit(64, self.first)
    }
}

/// Whether a number has 1 as the bit of this weight.
fn has_bit(weight: u8, number: u8) -> bool
    requires { 0 < weight }
    ensures { result ≡ has_bit weight number }
{
    number / weight % 2 == 1
}

/// A way to begin, and what it costs.
#[derive(Clone, Copy)]
struct Choice {
    begins: u8,
    cost: u16,
}

/// Gives the cost of taking two digits together, where there are two.
fn pair_cost(pair: bool, after: u16) -> u16
    requires { after ≤ 16384 }
    ensures { result ≡ (if pair then 1 + after else never) }
{
    if pair { 1 + after } else { NEVER }
}

/// What is added to the costs where runs and segments go on: the latch, and for a segment its length field, which is
/// longer where the bytes are more than 249. The lanes of two items and of one are filled by themselves.
const BEGINNINGS: [u16; 8] = [0, 0, 1, 1, 1, 1, 2, 2];

const LONG_BEGINNINGS: [u16; 8] = [0, 0, 1, 1, 1, 1, 3, 2];

/// Puts a number into each lane whose number here isn't 0.
#[inline]
fn with_lane(lanes: Simd<u16, 8>, lane: [u16; 8], number: u16) -> Simd<u16, 8>
    ensures { result ≡ sel_l (map (λ n. not (nat_eq n 0)) lane) (replicate 8 number) lanes }
{
    u16x8::from_array(lane)
        .simd_ne(u16x8::splat(0))
        .select(u16x8::splat(number), lanes)
}

/// Gives the costs of each way to begin.
#[inline]
fn costs_of(item: Item, pair: bool, next: &Costs, going: &GoingCosts) -> Simd<u16, 8>
    requires ascii { next.now.ascii ≤ 16384 }
    requires after { next.now.after ≤ 16384 }
    requires zero { get_or (going.now.first ++ going.now.second) 15 0 ≡ 0 }
    ensures costs { (r : Row) (g : Going) → HasRow r next.now → AreSmall g → HasGoing g going.now
        → result ≡ cost_lanes item pair r g }
    ensures small { get_or result 1 0 < 32768 }
{
    let two = pair_cost(pair, next.after);
    let one = unit_cost(item) + next.ascii;
    let beginnings = if going.near <= 249 {
        u16x8::from_array(BEGINNINGS)
    } else {
        u16x8::from_array(LONG_BEGINNINGS)
    };
    // What is added is made while the costs are still waited for.
    let more = with_lane(
        with_lane(beginnings, [1, 0, 0, 0, 0, 0, 0, 0], two),
        [0, 1, 0, 0, 0, 0, 0, 0],
        one,
    );
    going
        .first
        .shuffle(going.second, [15, 15, 0, 3, 8, 11, 6, 7])
        + more
}

/// Gives the lesser number of each lane.
#[inline]
fn lesser(one: Simd<u16, 8>, other: Simd<u16, 8>) -> Simd<u16, 8>
    ensures { result ≡ zip2 min one other }
{
    one.simd_min(other)
}

/// Gives the least of eight costs, by halves.
#[inline]
fn least(costs: Simd<u16, 8>) -> u16
    requires { get_or costs 1 0 < 32768 }
    ensures { result ≡ least_of costs }
{
    let four = lesser(costs, costs.swizzle([4, 5, 6, 7, 4, 5, 6, 7]));
    let two = lesser(four, four.swizzle([2, 3, 2, 3, 2, 3, 2, 3]));
    let one = lesser(two, two.swizzle([1, 1, 1, 1, 1, 1, 1, 1]));
    // The mask leaves it as it is; without, it would be worked out once more where all lanes are compared with it.
    one.to_array()[0] & 0x7FFF
}

/// Gives the least of eight costs, and the first place where it stands.
#[inline]
fn first_least(costs: Simd<u16, 8>) -> Choice
    requires { get_or costs 1 0 < 32768 }
    ensures least { result.cost ≡ least_of costs }
    ensures found { get_or costs result.begins 0 ≡ result.cost }
    ensures place { result.begins < 8 }
    ensures first { (k : ℕ) → k < result.begins → get_or costs k 0 ≡ result.cost → ⊥ }
{
    let cost = least(costs);
    let places = costs.simd_eq(u16x8::splat(cost)).to_bitmask();
    Choice {
        begins: places.trailing_zeros() as u8,
        cost,
    }
}

/// Gives the cheapest way to begin, the first of those that are equally cheap.
#[inline]
fn choose(item: Item, pair: bool, next: &Costs, going: &GoingCosts) -> Choice
    requires ascii { next.now.ascii ≤ 16384 }
    requires after { next.now.after ≤ 16384 }
    requires zero { get_or (going.now.first ++ going.now.second) 15 0 ≡ 0 }
    ensures cost { (r : Row) (g : Going) → HasRow r next.now → AreSmall g → HasGoing g going.now
        → result.cost ≡ least item pair r g }
    ensures begins { (r : Row) (g : Going) → HasRow r next.now → AreSmall g → HasGoing g going.now
        → cost_of item pair r g (begin_at result.begins) ≡ result.cost }
    ensures pair { (r : Row) (g : Going) → HasRow r next.now → AreSmall g → HasGoing g going.now
        → cost_of item pair r g (begin_at 0) ≡ result.cost → begin_at result.begins ≡ begin_at 0 }
    ensures one { (r : Row) (g : Going) → HasRow r next.now → AreSmall g → HasGoing g going.now
        → cost_of item pair r g (begin_at 1) ≡ result.cost
        → (begin_at result.begins ≡ begin_at 1) ⊎ (begin_at result.begins ≡ begin_at 0) }
{
    first_least(costs_of(item, pair, next, going))
}

/// Gives a bit for each lane, of weight 2^k for the lane k: whether it ends there no dearer than going on is.
#[inline]
fn ended(ends: Simd<u16, 8>, going: Simd<u16, 8>) -> u8
    ensures { (k : ℕ) → k < 8
        → has_bit (2 ^ k) result ≡ nat_le (get_or ends k 0) (get_or going k 0) }
{
    ends.simd_le(going).to_bitmask() as u8
}

/// Gives what to do at an item where this costs so much in ASCII.
#[inline]
fn step_of(cost: u16, begins: u8, going: &GoingCosts) -> StepBits
    requires { cost ≤ 16384 }
    ensures { (g : Going) → HasGoing g going.now
        → step_in result ≡ step_of cost (begin_at begins) g }
{
    StepBits {
        begins,
        first: ended(first_ends(cost), going.first),
        second: ended(second_ends(cost), going.second),
    }
}

/// Whether the item is a digit.
fn is_digit_item(item: Item) -> bool
    ensures digit { result ≡ is_digit_item item }
    ensures byte { IsItem item }
{
    match item {
        Item::Fnc1 => false,
        Item::Byte(byte) => b'0' <= byte && byte <= b'9',
    }
}

/// How many codewords items take.
#[derive(Clone, Copy)]
pub struct Lengths {
    /// At least, with those that follow them.
    pub least: u16,
    /// In ASCII, by themselves.
    pub ascii: u16,
}

/// Gives how many codewords of ASCII the items from one on take, of which this one and the next may be a pair, from
/// those of the items from the next one on, and from the one behind that.
#[inline]
fn ascii_from(item: Item, pair: bool, next: u16, after: u16) -> u16
    requires next { next ≤ 16384 }
    requires after { after ≤ 16384 }
    ensures { result ≡ (if pair then 1 + after else unit_cost item + next) }
{
    if pair {
        1 + after
    } else {
        unit_cost(item) + next
    }
}

/// Writes what to do at each item, and behind the last one, into the plan, and gives how many codewords the items take.
pub(crate) fn plan_to(setting: Setting, items: &[Item], plan: &mut [StepBits]) -> Lengths
    requires few { length items.now ≤ LARGEST_ROOM }
    requires behind { setting.behind ≤ most_behind }
    requires steps { length items.now < length plan.old }
    ensures cost { result.least ≡ parts_cost setting items.now }
    ensures most { result.least ≤ setting.behind + 2 * length items.now }
    ensures ascii { result.ascii ≡ length (ascii items.now) }
    ensures plan { IsRightPlan setting items.now plan.new }
    ensures message { IsMessage items.now }
{
    let none = none_going(setting.behind);
    let mut costs = with_ascii(setting.behind, NEVER, &none);
    let mut digit_behind = false;
    let mut ascii = 0;
    let mut ascii_behind = 0;
    plan[items.len()] = step_of(setting.behind, 0, &none);
    for at in (0..items.len()).rev() {
        let item = items[at];
        let digit = is_digit_item(item);
        let going = going_over(setting.extent, item, &costs);
        let choice = choose(item, digit & digit_behind, &costs, &going);
        plan[at] = step_of(choice.cost, choice.begins, &going);
        costs = with_ascii(choice.cost, costs.ascii, &going);
        let length = ascii_from(item, digit & digit_behind, ascii, ascii_behind);
        ascii_behind = ascii;
        ascii = length;
        digit_behind = digit;
    }
    Lengths {
        least: costs.ascii,
        ascii,
    }
}
