//! How much the data codewords of a symbol hold.

use dm_layout::MOST_GRID_DATA;
use dm_layout::symbols::MOST_DATA;

/// The most items that are read of a square in the usual extent, and that a profile writes there: two for each data
/// codeword.
pub const MOST_ITEMS: usize = 2 * MOST_GRID_DATA;

/// How many more items than two for each codeword the message of a macro can have: its header and its trailer are
/// nine items, for one codeword.
const MACRO_EXTRA: usize = 7;

/// The items for which a message has room, so the most that are read of a square in any extent.
pub const MESSAGE_ROOM: usize = MOST_ITEMS + MACRO_EXTRA;

/// The most items that are read of a symbol of any shape, in any extent.
pub const LARGEST_ROOM: usize = 2 * MOST_DATA + MACRO_EXTRA;

/// The most values of a run: three for each two codewords.
pub const MOST_VALUES: usize = 3 * MOST_DATA / 2;

/// A symbol with at most this many codewords has short runs alone.
pub const SHORT_RUN: usize = 204;

/// The most values of a short run.
pub const SHORT_VALUES: usize = 3 * SHORT_RUN / 2;

/// The marks for which a content has room: one for each two data codewords of a square.
pub const MOST_MARKS: usize = MOST_GRID_DATA / 2;

/// The most marks that are read of a symbol of any shape.
pub const LARGEST_MARKS: usize = MOST_DATA / 2;
