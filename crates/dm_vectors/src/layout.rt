//! Sizes, grids, borders, placement and blocks: `dm_layout`, and `dm_place` below it.

mod blocks;
mod borders;
mod grids;
mod laying;
mod matrices;
mod placement;
mod sizes;
