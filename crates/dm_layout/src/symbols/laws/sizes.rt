//! Facts about the definitions of the sizes.

ghost use Rattle.std.specs.Prelude.{◌≡◌, All, length};
ghost use Rattle.dm_layout.specs.symbols.Sizes.{IsGreatest, Agrees, MatricesAgree, area, codeword_count, mapping_rows};
ghost use Rattle.dm_layout.specs.symbols.Sizes.{mapping_columns};
ghost use Rattle.dm_layout.specs.symbols.Sizes.{most_rows, most_columns, most_modules, most_cells, most_data};
ghost use Rattle.dm_layout.specs.symbols.Sizes.{most_codewords};
ghost use Rattle.dm_layout.specs.symbols.Sizes.{most_blocks, most_block_check, longest_block, block_check, size_table};
ghost use Rattle.std.specs.Prelude.{◌*◌};

use crate::symbols::size::{
    LONGEST_BLOCK, MOST_BLOCKS, MOST_CODEWORDS, MOST_COLUMNS, MOST_DATA, MOST_MODULES, MOST_ROWS,
    SIZE_COUNT,
};

/// The numbers of each size agree with one another.
pub fn sizes_agree()
    ensures { All Agrees size_table }
{}

/// The mapping matrices of the sizes are those for which `dm_place` shows the laws of placement, and there are no
/// others.
pub fn matrices_are_those_of_placement()
    ensures { MatricesAgree }
{}

/// The most rows, columns, modules, cells of a mapping matrix, data codewords, codewords, blocks and check codewords of
/// a block are those of the table: some size has as many, and none has more.
pub fn limits_are_those_of_the_table()
    ensures rows { IsGreatest (λ size. size.rows) most_rows }
    ensures columns { IsGreatest (λ size. size.columns) most_columns }
    ensures modules { IsGreatest area most_modules }
    ensures cells { IsGreatest (λ size. mapping_rows size * mapping_columns size) most_cells }
    ensures data { IsGreatest (λ size. size.data_count) most_data }
    ensures codewords { IsGreatest codeword_count most_codewords }
    ensures blocks { IsGreatest (λ size. size.blocks) most_blocks }
    ensures checks { IsGreatest block_check most_block_check }
{}

/// The constants are these limits, how many sizes the table has, and the bound of the length of a block.
#[tactic(auto, unfolding(crate::specs::symbols::Sizes::size_table))]
pub fn constants_are_the_limits()
    ensures sizes { SIZE_COUNT ≡ length size_table }
    ensures rows { MOST_ROWS ≡ most_rows }
    ensures columns { MOST_COLUMNS ≡ most_columns }
    ensures modules { MOST_MODULES ≡ most_modules }
    ensures data { MOST_DATA ≡ most_data }
    ensures codewords { MOST_CODEWORDS ≡ most_codewords }
    ensures blocks { MOST_BLOCKS ≡ most_blocks }
    ensures length { LONGEST_BLOCK ≡ longest_block }
{}
