//! Sizes, modules, codewords and blocks of all sizes, squares and rectangles: `symbols` of `dm_layout`.

use dm_layout::symbols::{Symbol, SymbolWords, lay_to};

mod blocks;
mod targets;

/// The symbol in which these codewords are laid.
pub(crate) fn laid(words: &SymbolWords) -> Symbol {
    let size = words.size();
    // For the proof alone: what `rows` ensures says that there is room.
    let _rows = size.rows();
    let mut symbol = Symbol::light(size);
    lay_to(words, &mut symbol);
    symbol
}
