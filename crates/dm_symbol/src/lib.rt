//! Whole symbols of Data Matrix ECC 200 (ISO/IEC 16022, and ISO/IEC 21471, the rectangular extension): what a symbol
//! says, or a [`ReadFault`]; the symbol of a message, or [`TooLong`]; the normal symbol of what a symbol says, or a
//! [`NormalFault`]; and the codewords of a symbol before and after correction.
//!
//! What a symbol says is a content, a [`ContentIn`]: a [`Head`] or none, items, and [`Mark`]s at places of these. A
//! message is a content without a head and marks. These calls serve symbols of every size, squares and rectangles, a
//! [`SymbolIn`] of some [`SymbolSize`]: [`read_content_to()`] leaves what a symbol says in a [`ContentReadingIn`], with
//! the symbology identifier and a [`BlockReading`] for each block; [`write_content_to()`] leaves the symbol of a head,
//! items and marks in another; [`normal_content_to()`] the symbol of what a symbol says in the smallest square; and
//! [`inspect_symbol_to()`] the codewords in a [`SymbolInspectionIn`]. How a symbol is read is said by [`ReadOptions`]:
//! the [`Extent`], the limit of wrong border modules, and which modules are doubtful. How it is written is said by
//! [`WriteOptions`]: the [`Form`], which is that of a [`Profile`] or of the smallest symbol that says the same, and the
//! [`SizeChoice`]. [`restore_symbol_to()`] does the first steps of reading alone, and [`choose_words_to()`] and
//! [`lay_words_to()`] do those of writing, so that room is taken for the size at hand. A [`Dealing`] says how the check
//! codewords of 144 x 144 were dealt into blocks, which some encoders do otherwise than the standard. Their results and
//! codewords stand in targets, memory that the caller hands in and that serves any number of symbols. Each has a room;
//! those that serve every symbol are [`Symbol`], [`SymbolWords`], [`ContentReading`] and [`SymbolInspection`].
//!
//! Squares of 10 to 104 rows may be given as a [`Grid`], which is read in [`Extent::Usual`]. [`read()`] gives what a
//! grid says, a [`Reading`]; [`write()`] the normal grid of a [`Message`]; and [`normal()`] the normal grid of what a
//! grid says. These know no profile but [`Profile::Ascii`]; [`write_as()`] and [`normal_as()`] take any, and
//! [`read_to()`], [`write_to()`] and [`normal_to()`] leave their results in targets, a default [`Reading`] and a
//! default [`Grid`]. [`usual_limit()`] is the number of wrong border modules that is usually accepted.
//!
//! The types of the layers below are given on, among them [`GridFault`], [`Size`] with its [`table()`] of
//! [`GRID_SIZE_COUNT`], [`Words`], [`Item`], [`WordFault`], and the limits [`LARGEST_SIDE`], [`MOST_GRID_BLOCKS`],
//! [`MOST_ITEMS`], [`MESSAGE_ROOM`] and [`LARGEST_ROOM`], the last for a [`MessageIn`] of any symbol, and
//! [`LARGEST_MARKS`] for the marks of a [`ContentIn`].
//!
//! What the contracts say is defined in `specs/`. How symbols are restored and inspected is in `Doubt`, `Dealings`,
//! `SymbolBlocks`, `SymbolReading`, `Restored` and `SymbolInspection`, with `SymbolLaws`. How contents are read,
//! written and normalised is in `ContentReading`, `WrittenWords`, `NormalContent`, `SmallestContentSymbol`,
//! `WrittenContent` and `ContentNormal`, with `ContentLaws`. For grids, which are read, written and normalised as their
//! symbols are, it is in `NormalGrid`, `Reading`, `Normal` and `NormalOutcomes`, with `Laws`. The functions of [`laws`]
//! prove these. No call allocates memory.
#![tactic(auto)]

mod contents;
pub mod laws;
mod limit;
mod normalising;
mod reading;
mod symbol;
mod writing;

pub use contents::normalising::normal_content_to;
pub use contents::reading::read_content_to;
pub use contents::writing::{Form, WriteOptions, choose_words_to, lay_words_to, write_content_to};
pub use contents::{ContentNormalFault, ContentReadFault, ContentReading, ContentReadingIn};
pub use dm_layout::symbols::{
    SizeChoice, Symbol, SymbolIn, SymbolSize, SymbolWords, SymbolWordsIn,
};
pub use dm_layout::{
    GRID_SIZE_COUNT, Grid, GridFault, LARGEST_SIDE, MOST_GRID_BLOCKS, Size, Words, table,
};
pub use dm_words::{
    Appended, ContentFault, ContentIn, Extent, Head, Item, LARGEST_MARKS, LARGEST_ROOM,
    MESSAGE_ROOM, MOST_ITEMS, Mark, Message, MessageIn, Profile, TooLong, WordFault,
};
pub use limit::usual_limit;
pub use normalising::{NormalFault, normal, normal_as, normal_to};
pub use reading::{ReadFault, Reading, read, read_to};
pub use symbol::dealing::Dealing;
pub use symbol::inspection::{SymbolInspection, SymbolInspectionIn, inspect_symbol_to};
pub use symbol::reading::{BlockReading, ReadOptions, restore_symbol_to};
pub use writing::{write, write_as, write_to};
