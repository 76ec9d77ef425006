//! The codewords of a square.

ghost use Rattle.std.specs.Prelude.{◌≡◌, length};
ghost use Rattle.dm_layout.specs.Sizes.{codeword_count};
ghost use Rattle.dm_layout.specs.Words.{IsWords, data_of};

use crate::grids::size::{MOST_GRID_CODEWORDS, Size};
use crate::symbols::SymbolWordsIn;
use std::marker::Model;

/// The codewords of a symbol of some [`Size`]: exactly its data codewords and then its check codewords,
/// in the order in which they are placed. In contracts it is a `WordsView` of `specs/Words.antt`.
#[derive(Clone, Debug, Drop)]
pub struct Words {
    pub(crate) symbol: SymbolWordsIn<MOST_GRID_CODEWORDS>,
}

impl Model for Words {
    ghost use Rattle.dm_layout.specs.Words.{WordsView};
    ghost use Rattle.dm_layout.specs.inner.Keeping.{kept_words, IsKept};

    ghost Value = { WordsView };

    ghost view = { λ w. kept_words w.symbol };

    ghost invariant = { λ w. IsKept w.symbol.size };
}

impl Words {
    /// Gives the codewords `list` of a symbol of this size, data and then checks, in the order of the symbol: as many
    /// as the size's data and check codewords together.
    #[inline]
    pub fn new(size: Size, list: &[u8]) -> Words
        requires { length list.now ≡ codeword_count size }
        ensures value { result ≡ record { size = size; list = list.now } }
        ensures words { IsWords result }
    {
        // For the proof alone: what `check_count` ensures says that the codewords fit.
        let _checks = size.check_count();
        Words {
            symbol: SymbolWordsIn::new(size.symbol(), list),
        }
    }

    /// Gives the size of the symbol.
    #[inline]
    pub fn size(&self) -> Size
        ensures value { result ≡ self.now.size }
        ensures words { IsWords self.now }
    {
        Size {
            symbol: self.symbol.size(),
        }
    }

    /// Gives all codewords, in the order of the symbol.
    #[inline]
    pub fn list(&self) -> &[u8]
        ensures value { result.now ≡ self.now.list }
        ensures words { IsWords self.now }
    {
        self.symbol.list()
    }

    /// Gives the data codewords.
    #[inline]
    pub fn data_part(&self) -> &[u8]
        ensures value { result.now ≡ data_of self.now }
        ensures words { IsWords self.now }
    {
        self.symbol.data_part()
    }
}

impl PartialEq for Words {
    ghost use Rattle.std.specs.Prelude.{◌≡◌, ◌↔◌, IsTrue};
    ghost use Rattle.dm_layout.specs.Equality.{equal_words};
    ghost use Rattle.dm_layout.specs.Equality.{words_per};

    ghost eq = { equal_words };

    ghost laws = { words_per };

    /// Whether the sides agree, and all codewords.
    fn eq(&self, other: &Words) -> bool
        ensures value { result ≡ equal_words self.now other.now }
        ensures same { IsTrue result ↔ (self.now ≡ other.now) }
    {
        self.symbol == other.symbol
    }
}

impl Eq for Words {
    ghost use Rattle.dm_layout.specs.Equality.{words_equiv};

    ghost laws = { words_equiv };
}
