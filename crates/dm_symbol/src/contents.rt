//! Reading, writing and normalising symbols where what they say is taken as a content: a head or none, items and marks.

ghost use Rattle.std.specs.Prelude.{◌≡◌, []};
ghost use Rattle.dm_words.specs.ContentExtents.{as_content};
ghost use Rattle.dm_symbol.specs.declared.symbol.dealing.Dealing.TheVariants.{Standard};
ghost use Rattle.dm_symbol.specs.ContentReading.{content_reading_in, content_reading_of};

pub mod normalising;
pub mod reading;
pub mod writing;

use crate::symbol::dealing::Dealing;
use crate::symbol::reading::BlockReading;
use arrayvec::ArrayVec;
use dm_layout::symbols::MOST_BLOCKS;
use dm_words::{ContentFault, ContentIn, LARGEST_MARKS, LARGEST_ROOM};

/// What a symbol says as a content, and how much of it was wrong, with room for a content of at most `ITEMS` items and
/// `MARKS` marks.
#[derive(Clone, Debug, Drop, PartialEq, Eq)]
pub struct ContentReadingIn<const ITEMS: usize, const MARKS: usize> {
    /// The content.
    pub content: ContentIn<ITEMS, MARKS>,
    /// The number of the symbology identifier, 1 to 6 (ISO/IEC 15424). It belongs to the codewords that were printed,
    /// and not to the content: other codewords that say the same may have another one.
    pub identifier: u8,
    /// How the codewords were found to be dealt into blocks: as the standard does, but in some symbols of 144 x 144.
    pub dealing: Dealing,
    /// What became of each block, in order.
    pub blocks: ArrayVec<BlockReading, MOST_BLOCKS>,
    /// How many modules of the borders have the wrong colour and aren't doubtful.
    pub border_faults: u16,
}

/// What a symbol says as a content, with room for what any symbol says.
pub type ContentReading = ContentReadingIn<LARGEST_ROOM, LARGEST_MARKS>;

/// Why a symbol is read as no content.
#[derive(Clone, Copy, Debug, PartialEq, Eq)]
pub enum ContentReadFault {
    /// More modules of the borders have the wrong colour than the limit allows; this is their number.
    Border(u16),
    /// This block has more errors than can be corrected. It is the first such block; blocks count from 0.
    Block(u8),
    /// The corrected data codewords say no content.
    Words(ContentFault),
}

/// Why a symbol has no normal symbol.
#[derive(Clone, Copy, Debug, PartialEq, Eq)]
pub enum ContentNormalFault {
    /// It is read as no content.
    Read(ContentReadFault),
    /// The normal form of its content fits no square.
    TooLong,
}

// The reading of an empty content, into which a symbol can be read.
impl<const ITEMS: usize, const MARKS: usize> Default for ContentReadingIn<ITEMS, MARKS> {
    ghost is_default = { λ reading. content_reading_in reading
        ≡ content_reading_of (as_content []) 1 Standard [] 0 };

    fn default() -> Self {
        ContentReadingIn::empty()
    }
}

impl<const ITEMS: usize, const MARKS: usize> ContentReadingIn<ITEMS, MARKS> {
    /// Gives the reading of an empty content.
    fn empty() -> Self
        ensures { content_reading_in result
            ≡ content_reading_of (as_content []) 1 Dealing.Standard [] 0 }
    {
        ContentReadingIn {
            content: ContentIn::new(),
            identifier: 1,
            dealing: Dealing::Standard,
            blocks: ArrayVec::new(),
            border_faults: 0,
        }
    }
}
