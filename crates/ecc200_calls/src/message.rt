//! Messages as numbers: a byte is itself, FNC1 is 256.

ghost use Rattle.std.specs.Prelude.{◌≡◌, ◌≤◌, ℕ, length, map, take, All, IfSome, IfNone};
ghost use Rattle.dm_symbol.specs.Messages.{IsItem, IsMessage};
ghost use Rattle.ecc200_calls.specs.Arrays.{over};
ghost use Rattle.ecc200_calls.specs.Items.{IsFirstForeign, number_of};

use dm_symbol::Item;

/// The number of FNC1.
const FNC1: u16 = 256;

/// What stands for an item: a number to 256, or a byte.
pub(crate) trait ItemNumber: Copy {
    // The number.
    ghost number: { Self → ℕ };

    /// Gives it as a number that has room for that of FNC1.
    fn number(self) -> u16
        ensures { result ≡ number self };
}

impl ItemNumber for u8 {
    ghost number = { λ byte. byte };

    #[inline(always)]
    fn number(self) -> u16 {
        u16::from(self)
    }
}

impl ItemNumber for u16 {
    ghost number = { λ number. number };

    #[inline(always)]
    fn number(self) -> u16 {
        self
    }
}

/// Gives the place of the first of these numbers that stands for no item.
pub(crate) fn first_foreign<N: ItemNumber>(numbers: &[N]) -> Option<usize>
    ensures some { IfSome result (λ place. IsFirstForeign (map N.number numbers.now) place) }
    ensures none { IfNone result (All (λ number. number ≤ 256) (map N.number numbers.now)) }
{
    numbers.iter().position(|number| number.number() > FNC1)
}

/// Gives the item of a number.
fn item_of(number: u16) -> Item
    requires { number ≤ 256 }
    ensures number { number_of result ≡ number }
    ensures item { IsItem result }
{
    if number < FNC1 {
        Item::Byte(number as u8)
    } else {
        Item::Fnc1
    }
}

/// Writes the items of numbers over the first ones.
pub(crate) fn put_items_of<N: ItemNumber>(all: &mut [Item], numbers: &[N])
    requires items { All (λ number. number ≤ 256) (map N.number numbers.now) }
    requires room { length numbers.now ≤ length all.old }
    ensures numbers { map number_of (take (length numbers.now) all.new) ≡ map N.number numbers.now }
    ensures message { IsMessage (take (length numbers.now) all.new) }
    ensures room { length all.new ≡ length all.old }
{
    for (i, number) in numbers.iter().enumerate() {
        all[i] = item_of(number.number());
    }
}

/// Gives the number of an item.
fn number_of(item: Item) -> u16
    ensures { result ≡ number_of item }
{
    match item {
        Item::Byte(byte) => u16::from(byte),
        Item::Fnc1 => FNC1,
    }
}

/// Writes the numbers of items over the first ones.
pub(crate) fn put_items(all: &mut [u16], items: &[Item])
    requires { length items.now ≤ length all.old }
    ensures { all.new ≡ over (map number_of items.now) all.old }
{
    for (i, item) in items.iter().enumerate() {
        all[i] = number_of(*item);
    }
}
