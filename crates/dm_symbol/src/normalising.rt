//! Normalising: the normal grid of what a grid says.

ghost use Rattle.dm_symbol.specs.Normal.{IsNormalised, IsNormalisedTo};

use crate::reading::{ReadFault, Reading, read_to};
use crate::writing::write_to;
use dm_layout::Grid;
use dm_words::{Profile, TooLong};

/// Why a grid has no normal grid.
#[derive(Clone, Copy, Debug, PartialEq, Eq)]
pub enum NormalFault {
    /// It is not read.
    Read(ReadFault),
    /// The normal form of its message fits no size.
    TooLong,
}

/// Gives the normal grid under [`Profile::Ascii`] of the message that the grid says in the usual extent: what
/// [`normal_as`] gives for that profile.
pub fn normal(grid: &Grid, border_limit: u16) -> Result<Grid, NormalFault>
    ensures { IsNormalised Profile.Ascii grid.now border_limit result }
{
    normal_as(Profile::Ascii, grid, border_limit)
}

/// Gives the normal grid, under a profile, of the message that the grid says in the usual extent: what [`normal_to`]
/// leaves.
pub fn normal_as(profile: Profile, grid: &Grid, border_limit: u16) -> Result<Grid, NormalFault>
    ensures { IsNormalised profile grid.now border_limit result }
{
    let mut reading = Reading::default();
    let mut normal = Grid::default();
    match normal_to(profile, grid, border_limit, &mut reading, &mut normal) {
        Ok(()) => Ok(normal),
        Err(fault) => Err(fault),
    }
}

/// Turns `normal` into the normal grid, under a profile, of the message that the grid says in the usual extent,
/// whatever its size, encodation and damage. Two grids that are read have equal normal grids under one profile exactly
/// where they say the same, and a normal grid is its own. The fault is `Read` where [`read_to`](crate::read_to())
/// refuses the grid, with its fault, and `TooLong` where [`write_to`](crate::write_to()) refuses the message under this
/// profile.
///
/// After `Ok`, `normal` holds the normal grid and `reading` what the grid says, whatever they held before. After a
/// fault `normal` is as it was; `reading` holds what the grid says after `TooLong` too, and some reading after `Read`.
pub fn normal_to(
    profile: Profile,
    grid: &Grid,
    border_limit: u16,
    reading: &mut Reading,
    normal: &mut Grid,
) -> Result<(), NormalFault>
    ensures { IsNormalisedTo profile grid.now border_limit result
        reading.new normal.old normal.new }
{
    match read_to(grid, border_limit, reading) {
        Ok(()) => {}
        Err(fault) => return Err(NormalFault::Read(fault)),
    }
    match write_to(profile, &reading.message, normal) {
        Ok(()) => Ok(()),
        Err(TooLong) => Err(NormalFault::TooLong),
    }
}
