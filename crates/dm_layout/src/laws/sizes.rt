//! Facts about the definitions of the sizes.
#![tactic(auto, unfolding(crate::specs::Sizes::size_table))]

ghost use Rattle.std.specs.Prelude.{◌≡◌, length};
ghost use Rattle.dm_layout.specs.Sizes.{IsGreatest, codeword_count, regions_across, largest_side, largest_mapping};
ghost use Rattle.dm_layout.specs.Sizes.{most_across, most_grid_data, most_grid_codewords, most_grid_blocks};
ghost use Rattle.dm_layout.specs.Sizes.{most_block_check};
ghost use Rattle.dm_layout.specs.Sizes.{block_check, size_table};

use crate::{GRID_SIZE_COUNT, LARGEST_SIDE, MOST_GRID_BLOCKS, MOST_GRID_CODEWORDS, MOST_GRID_DATA};

/// The largest side and mapping side, and the most regions side by side, data codewords, codewords, blocks and check
/// codewords of a block are those of the table: some size has as many, and none has more.
pub fn limits_are_those_of_the_table()
    ensures side { IsGreatest (λ row. row.side) largest_side }
    ensures mapping { IsGreatest (λ row. row.mapping) largest_mapping }
    ensures across { IsGreatest regions_across most_across }
    ensures data { IsGreatest (λ row. row.data_count) most_grid_data }
    ensures codewords { IsGreatest codeword_count most_grid_codewords }
    ensures blocks { IsGreatest (λ row. row.blocks) most_grid_blocks }
    ensures checks { IsGreatest block_check most_block_check }
{}

/// The constants of squares are these limits, and how many sizes the table has.
pub fn constants_are_the_limits()
    ensures sizes { GRID_SIZE_COUNT ≡ length size_table }
    ensures side { LARGEST_SIDE ≡ largest_side }
    ensures data { MOST_GRID_DATA ≡ most_grid_data }
    ensures codewords { MOST_GRID_CODEWORDS ≡ most_grid_codewords }
    ensures blocks { MOST_GRID_BLOCKS ≡ most_grid_blocks }
{}
