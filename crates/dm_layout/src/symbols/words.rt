//! The codewords of a symbol.

ghost use Rattle.std.specs.Prelude.{◌≡◌, ◌<◌, ◌≤◌, length, replicate};
ghost use Rattle.std.specs.List.{All};
ghost use Rattle.std.specs.Borrow.{sem, Lends, Array, u8 as byte};
ghost use Rattle.dm_layout.specs.symbols.Sizes.{IsSize, codeword_count};
ghost use Rattle.dm_layout.specs.symbols.Words.{IsWords, data_of, first_words};
ghost use Rattle.dm_layout.specs.contracts.symbols.words.SymbolWordsIn.{the_row};

use crate::symbols::size::{MOST_CODEWORDS, SymbolSize};
use std::marker::Model;

/// The codewords of a symbol of some [`SymbolSize`], at most `ROOM`: exactly its data codewords and then its check
/// codewords, in the order in which they are placed. They stand at the start of an array; what stands behind them means
/// nothing. In contracts it is a `WordsView` of `specs/symbols/Words.antt`.
#[derive(Clone, Debug, Drop)]
pub struct SymbolWordsIn<const ROOM: usize> {
    size: SymbolSize,
    kept: [u8; ROOM],
}

/// The codewords of a symbol of any size.
pub type SymbolWords = SymbolWordsIn<MOST_CODEWORDS>;

impl<const ROOM: usize> Model for SymbolWordsIn<ROOM> {
    ghost use Rattle.dm_layout.specs.symbols.Words.{WordsView, first_words};
    ghost use Rattle.dm_layout.specs.symbols.inner.Keeping.{AreKeptIn};

    ghost Value = { WordsView };

    ghost view = { λ w. first_words w.size w.kept };

    ghost invariant = { λ w. AreKeptIn ROOM w.size };
}

/// Says, for proofs alone, that bytes are below 256.
#[inline(always)]
fn are_bytes(_list: &[u8])
    ensures { All (λ word. word < 256) _list.now }
{}

impl<const ROOM: usize> SymbolWordsIn<ROOM> {
    /// Gives the codewords `list` of a symbol of this size, data and then checks, in the order of the symbol: as many
    /// as the size's data and check codewords together.
    pub fn new(size: SymbolSize, list: &[u8]) -> SymbolWordsIn<ROOM>
        requires count { length list.now ≡ codeword_count size }
        requires room { codeword_count size ≤ ROOM }
        ensures value { result ≡ record { size = size; list = list.now } }
        ensures words { IsWords result }
    {
        // For the proof alone: what `check_count` ensures says that the size stands in the table.
        let _checks = size.check_count();
        let mut kept = [0; ROOM];
        let room = &mut kept[..];
        room[0..list.len()].copy_from_slice(list);
        are_bytes(list);
        SymbolWordsIn { size, kept }
    }

    /// Gives codewords of this size that are all 0, to be replaced.
    pub fn zeros(size: SymbolSize) -> SymbolWordsIn<ROOM>
        requires { codeword_count size ≤ ROOM }
        ensures value { result
            ≡ record { size = size; list = replicate (codeword_count size) 0 } }
        ensures words { IsWords result }
    {
        // For the proof alone: what `check_count` ensures says that the size stands in the table.
        let _checks = size.check_count();
        SymbolWordsIn {
            size,
            kept: [0; ROOM],
        }
    }

    /// Turns these into codewords of this size with any values, to be put: they are the first of the bytes that it
    /// gives, as many as the size has.
    #[inline(always)]
    pub fn resize(&mut self, size: SymbolSize) -> &mut [u8]
        requires { codeword_count size ≤ ROOM }
        ensures* lends { sem 𝓛 (Lends (the_row ROOM.row) (Array byte 0) self.entry result
            (first_words size)) }
        ensures value { first_words self.old.size result.now ≡ self.old }
        ensures room { length result.now ≡ ROOM }
        ensures size { IsSize size }
    {
        // For the proof alone: what `check_count` ensures says that the size stands in the table.
        let _checks = size.check_count();
        self.size = size;
        &mut self.kept[..]
    }

    /// Gives how many codewords there are.
    fn count(&self) -> usize
        ensures value { result ≡ codeword_count self.now.size }
        ensures fits { result ≤ ROOM }
    {
        (self.size.data_count() + self.size.check_count()) as usize
    }

    /// Gives the size of the symbol.
    pub fn size(&self) -> SymbolSize
        ensures value { result ≡ self.now.size }
        ensures words { IsWords self.now }
        ensures room { codeword_count self.now.size ≤ ROOM }
    {
        are_bytes(&self.kept);
        self.size
    }

    /// Gives all codewords, in the order of the symbol.
    pub fn list(&self) -> &[u8]
        ensures value { result.now ≡ self.now.list }
        ensures words { IsWords self.now }
    {
        let kept = &self.kept[..];
        are_bytes(kept);
        &kept[..self.count()]
    }

    /// Gives the data codewords.
    pub fn data_part(&self) -> &[u8]
        ensures value { result.now ≡ data_of self.now }
        ensures words { IsWords self.now }
    {
        let kept = &self.kept[..];
        are_bytes(kept);
        &kept[..self.size.data_count() as usize]
    }
}

impl<const ROOM: usize> PartialEq for SymbolWordsIn<ROOM> {
    ghost use Rattle.std.specs.Prelude.{◌≡◌, ◌↔◌, IsTrue};
    ghost use Rattle.dm_layout.specs.symbols.Equality.{equal_words};
    ghost use Rattle.dm_layout.specs.symbols.Equality.{words_per};

    ghost eq = { equal_words };

    ghost laws = { words_per };

    /// Whether the sizes agree, and all codewords.
    fn eq(&self, other: &SymbolWordsIn<ROOM>) -> bool
        ensures value { result ≡ equal_words self.now other.now }
        ensures same { IsTrue result ↔ (self.now ≡ other.now) }
    {
        self.size().is_same(other.size()) && self.list() == other.list()
    }
}

impl<const ROOM: usize> Eq for SymbolWordsIn<ROOM> {
    ghost use Rattle.dm_layout.specs.symbols.Equality.{words_equiv};

    ghost laws = { words_equiv };
}
