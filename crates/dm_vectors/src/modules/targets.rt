//! Codewords laid in a symbol and lifted out of it, where the same targets serve one size after the other.

use crate::claims::holds;
use crate::modules::laid;
use dm_layout::symbols::{MOST_CODEWORDS, Symbol, SymbolSize, SymbolWords, lay_to, lift_to, table};

/// The codewords of this size, each of which is 91 times its place.
fn multiples(size: SymbolSize) -> SymbolWords {
    let mut list = [0; MOST_CODEWORDS];
    for place in 0..MOST_CODEWORDS {
        list[place] = (place.wrapping_mul(91) % 256) as u8;
    }
    SymbolWords::new(
        size,
        &list[..(size.data_count() + size.check_count()) as usize],
    )
}

/// Whether a symbol and codewords hold those of this size, whatever they held before.
fn hold(size: SymbolSize, symbol: &mut Symbol, words: &mut SymbolWords) -> bool {
    let expected = multiples(size);
    // For the proof alone: what these ensure says that there is room.
    let _rows = expected.size().rows();
    lay_to(&expected, symbol);
    let size = symbol.size();
    let count = usize::from(size.data_count() + size.check_count());
    let room = words.resize(size);
    lift_to(&symbol.borrowed(), &mut room[..count]);
    *symbol == laid(&expected) && *words == expected
}

/// Whether one symbol and one list of codewords hold those of one size after the other, the largest first.
fn hold_all() -> bool {
    let sizes = table();
    let mut words = multiples(sizes[47]);
    let mut symbol = laid(&words);
    for size in sizes {
        if !hold(size, &mut symbol, &mut words) {
            return false;
        }
    }
    true
}

#[test]
fn one_place_for_all_symbols(rt: HostRuntime) {
    holds(&rt, hold_all());
}
