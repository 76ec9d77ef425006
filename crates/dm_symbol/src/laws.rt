//! Laws of the definitions in `specs/`. Each function has an empty body: its contract is the law.

ghost use Rattle.dm_symbol.specs.Laws.{NormalGridsTellMessages, OneMessageIsRead, FewItemsAreRead, NoMoreItemsAreRead};
ghost use Rattle.dm_symbol.specs.Laws.{ReadResultIsOne, NormalResultIsOne, ReadResultIsThere, NormalResultIsThere};
ghost use Rattle.dm_symbol.specs.Laws.{ANormalGridIsThere, NormalGridIsRead, TurnedCellsAreRead, NormalTwiceIsOnce};
ghost use Rattle.dm_symbol.specs.Laws.{TheLastProfileDecides, EqualNormalGridsMeanEqualMessages};

pub mod contents;
pub mod symbols;

/// Two normal grids under one profile are equal exactly where their messages are.
pub fn normal_grids_tell_messages()
    ensures { NormalGridsTellMessages }
{}

/// A grid is read as at most one message, whatever the limits. For each limit it has at most one result of reading and,
/// under each profile, at most one of normalising.
pub fn one_message_is_read()
    ensures message { OneMessageIsRead }
    ensures read { ReadResultIsOne }
    ensures normal { NormalResultIsOne }
{}

/// For each limit, each grid has a result of reading and, under each profile, one of normalising. By
/// [`one_message_is_read`] it has exactly one of each.
pub fn each_grid_has_a_result()
    ensures read { ReadResultIsThere }
    ensures normal { NormalResultIsThere }
{}

/// What a grid is read as has at most two items for each data codeword of its size, and so at most 1,632 items.
pub fn few_items_are_read()
    ensures by_size { FewItemsAreRead }
    ensures by_largest { NoMoreItemsAreRead }
{}

/// Each message that fits some size has a normal grid.
pub fn a_normal_grid_is_there()
    ensures { ANormalGridIsThere }
{}

/// The normal grid of a message is read as that message for every limit, with nothing corrected.
pub fn normal_grid_is_read()
    ensures { NormalGridIsRead }
{}

/// If no more cells of a normal grid are turned over than codewords can be corrected in a block of its size, the grid
/// that comes out is read as the same message, for every border limit that is no less than that number of codewords.
pub fn turned_cells_are_read()
    ensures { TurnedCellsAreRead }
{}

/// Normalising twice under one profile is the same as normalising once.
pub fn normal_twice_is_once()
    ensures { NormalTwiceIsOnce }
{}

/// Normalising under one profile and then under another is the same as normalising under the other.
pub fn the_last_profile_decides()
    ensures { TheLastProfileDecides }
{}

/// Two grids that are read have equal normal grids under one profile exactly where their messages are equal.
pub fn equal_normal_grids_mean_equal_messages()
    ensures { EqualNormalGridsMeanEqualMessages }
{}
