//! The modules of a symbol, as numbers and as bytes.

ghost use Rattle.std.specs.Prelude.{◌<◌, ◌≤◌};

use dm_layout::symbols::Symbol;

/// Gives sixteen modules of a row from a column on, one of 0, 16, .. up to 128: the first as the lowest bit, 1 for
/// dark. Those from the columns of the symbol on mean nothing.
pub(crate) fn sixteen(symbol: &Symbol, row: u16, column: u16) -> u64
    requires row { row < symbol.now.size.rows }
    requires column { column ≤ 128 }
{
    if column < 128 {
        (symbol.row(row) >> column & 0xffff) as u64
    } else {
        u64::from(symbol.end(row))
    }
}

/// Gives the lowest eight bits as the bytes of a number, 0 or 1 each, the lowest first.
pub(crate) fn bytes_of(bits: u64) -> u64 {
    let each = (bits & 0xff).wrapping_mul(0x0101_0101_0101_0101) & 0x8040_2010_0804_0201;
    (each.wrapping_add(0x7f7f_7f7f_7f7f_7f7f) & 0x8080_8080_8080_8080) >> 7
}
