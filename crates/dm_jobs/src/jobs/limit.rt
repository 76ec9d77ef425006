//! Damage at the limit and beyond it, by codewords.

use crate::chance::Chance;
use crate::digest::Digest;
use crate::library::{Caller, exact};
use crate::texts::{Text, serial};
use dm_layout::symbols::MOST_MODULES;
use ecc200_calls::{Fault, PlaceOut, PlacesOut, places};

/// The kind of a module that is a bit of a codeword.
const BIT: u8 = 1;

/// What each module of a size is.
#[derive(Drop)]
pub(crate) struct Places {
    out: PlacesOut,
}

impl Places {
    /// Gives those of the size with these rows and columns.
    pub(crate) fn of(rows: u16, columns: u16) -> Places {
        let nothing = PlaceOut {
            codeword: 0,
            bit: 0,
            kind: 0,
        };
        let fault = Fault {
            code: 0,
            value: 0,
            place: 0,
        };
        let mut out = PlacesOut {
            fault,
            rows: 0,
            columns: 0,
            places: [nothing; MOST_MODULES],
        };
        let _code = places(rows, columns, &mut out);
        Places { out }
    }

    /// Gives how many modules there are.
    fn area(&self) -> usize {
        (usize::from(self.out.rows) * usize::from(self.out.columns)).min(MOST_MODULES)
    }

    /// Whether a module is the first bit of a codeword from one on, before another.
    fn is_first_bit(&self, place: usize, from: u16, to: u16) -> bool {
        match self.out.places.get(place) {
            Some(it) => it.kind == BIT && it.bit == 1 && from <= it.codeword && it.codeword < to,
            None => false,
        }
    }

    /// Whether a module is a bit of a codeword of the second of two blocks.
    fn is_second(&self, place: usize) -> bool {
        match self.out.places.get(place) {
            Some(it) => it.codeword % 2 == 1,
            None => false,
        }
    }
}

/// Loses a module of each codeword from one on, before another.
pub(crate) fn lose_codewords(caller: &mut Caller, places: &Places, from: u16, to: u16) {
    for place in 0..places.area() {
        if places.is_first_bit(place, from, to) {
            caller.lose(place);
        }
    }
}

/// Turns a module of each second codeword from one on, before another.
pub(crate) fn spoil_second_codewords(caller: &mut Caller, places: &Places, from: u16, to: u16) {
    for place in 0..places.area() {
        if places.is_first_bit(place, from, to) && places.is_second(place) {
            caller.turn_at(place);
        }
    }
}

/// Writes a symbol of 144 x 144 and one of 52 x 52, and reads them with as many codewords lost as can be restored, and
/// with one more.
pub(crate) fn round(
    caller: &mut Caller,
    largest: &Places,
    middle: &Places,
    chance: &mut Chance,
    digest: &mut Digest,
) {
    let mut text = Text::new();
    serial(&mut text, 1000, chance);
    caller.write(text.as_slice(), exact(144, 144), digest);
    let from = chance.below(1500) as u16;
    lose_codewords(caller, largest, from, from + 620);
    caller.read_doubtful(digest);
    serial(&mut text, 180, chance);
    caller.write(text.as_slice(), exact(52, 52), digest);
    let from = chance.below(200) as u16;
    lose_codewords(caller, middle, from, from + 84);
    caller.read_doubtful(digest);
    caller.renew();
    lose_codewords(caller, middle, from, from + 85);
    caller.read_doubtful(digest);
}
