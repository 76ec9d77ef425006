//! Grids from pieces of a text.

ghost use Rattle.std.specs.Prelude.{◌≡◌, [], ℕ, List, IfNone, IfSome, length};
ghost use Rattle.dm_text.specs.Records.{AreLfs};
ghost use Rattle.dm_text.specs.RecordFacts.{AreRecordFacts};
ghost use Rattle.dm_text.specs.RecordFeeds.{ClosesRecord, LastRecordMeans, LeavesRecordOpen};
ghost use Rattle.dm_symbol.specs.Outcomes.{outcome};

use crate::record::{OpenRecord, RecordFault};
use dm_symbol::Grid;
use std::marker::Model;

/// Cuts a text that comes in pieces into records, the longest stretches of lines that are not empty. It holds the
/// record that stands open, but no more of it than a grid can have: once a byte other than 0, 1 and LF has come, or the
/// record is too large, it holds only that.
///
/// In contracts it is the `RecordFacts` (`specs/RecordFacts.antt`) of the text since the last record. The clauses
/// `some_text` say that there is such a text, so that what a clause says of each of them isn't empty.
#[derive(Drop)]
pub struct GridFeed {
    record: OpenRecord,
}

impl Model for GridFeed {
    ghost use Rattle.std.specs.Prelude.{ℕ, List};
    ghost use Rattle.dm_text.specs.RecordFacts.{RecordFacts, AreRecordFacts};

    // The facts of the open record.
    ghost Value = { RecordFacts };

    ghost view = { λ f. f.record };

    // These are the facts of some text.
    ghost invariant = { λ f. (text : List ℕ) × AreRecordFacts text f.record };
}

/// What one call of [`GridFeed::feed`] came to.
#[derive(Clone, Debug, Drop, PartialEq, Eq)]
pub struct Fed {
    /// How many bytes of the piece were taken.
    pub taken: usize,
    /// The record that they close, if any: its grid, or why it is none.
    pub closed: Option<Result<Grid, RecordFault>>,
}

impl GridFeed {
    /// Begins a feed in which no record stands open.
    pub fn new() -> Self
        ensures { AreRecordFacts [] result }
    {
        GridFeed {
            record: OpenRecord::new(),
        }
    }

    /// Takes bytes up to and including the first one that closes a record, the LF of an empty line after it, and
    /// gives that record. Where the piece closes none, all of it is taken. A record that is no grid leaves
    /// the feed ready for the next one.
    pub fn feed(&mut self, piece: &[u8]) -> Fed
        ensures open { IfNone result.closed
            (LeavesRecordOpen self.old piece.now result.taken self.new) }
        ensures closed { IfSome result.closed
            (λ meaning. ClosesRecord self.old piece.now result.taken meaning self.new) }
        ensures some_text { (text : List ℕ) × AreRecordFacts text self.old }
    {
        let mut grid = Grid::default();
        let Some((taken, found)) = self.feed_to(piece, &mut grid) else {
            return Fed {
                taken: piece.len(),
                closed: None,
            };
        };
        Fed {
            taken,
            closed: Some(with_grid(found, grid)),
        }
    }

    /// Closes the open record, if there is one. The feed is then as a new one is.
    pub fn finish(&mut self) -> Option<Result<Grid, RecordFault>>
        ensures none { IfNone result
            ((text : List ℕ) → AreRecordFacts text self.old → AreLfs text) }
        ensures last { IfSome result
            (λ meaning. (text : List ℕ) → AreRecordFacts text self.old
            → LastRecordMeans text meaning) }
        ensures empty { AreRecordFacts [] self.new }
        ensures some_text { (text : List ℕ) × AreRecordFacts text self.old }
    {
        let mut grid = Grid::default();
        let Some(found) = self.finish_to(&mut grid) else {
            return None;
        };
        Some(with_grid(found, grid))
    }

    /// Takes bytes as [`GridFeed::feed`] does, but leaves the grid in `grid`. Where they close a record, says how
    /// many they are, and the record's fault if it is no grid; `grid` may then hold anything. None where
    /// all of the piece is taken.
    pub(crate) fn feed_to(
        &mut self,
        piece: &[u8],
        grid: &mut Grid,
    ) -> Option<(usize, Result<(), RecordFault>)>
        ensures open { IfNone result
            (LeavesRecordOpen self.old piece.now (length piece.now) self.new) }
        ensures closed { IfSome result
            (λ fed. ClosesRecord self.old piece.now fed.0 (outcome fed.1 grid.new) self.new) }
        ensures some_text { (text : List ℕ) × AreRecordFacts text self.old }
    {
        let Some(end) = self.record.take(piece) else {
            return None;
        };
        Some((end + 1, self.record.close_to(grid)))
    }

    /// Closes the open record, if there is one, as [`GridFeed::finish`] does, but leaves the grid in
    /// `grid`.
    pub(crate) fn finish_to(&mut self, grid: &mut Grid) -> Option<Result<(), RecordFault>>
        ensures none { IfNone result
            ((text : List ℕ) → AreRecordFacts text self.old → AreLfs text) }
        ensures last { IfSome result
            (λ found. (text : List ℕ) → AreRecordFacts text self.old
            → LastRecordMeans text (outcome found grid.new)) }
        ensures empty { AreRecordFacts [] self.new }
        ensures some_text { (text : List ℕ) × AreRecordFacts text self.old }
    {
        if self.record.is_empty() {
            return None;
        }
        Some(self.record.close_to(grid))
    }
}

/// Gives the grid of a record, or the record's fault.
fn with_grid(found: Result<(), RecordFault>, grid: Grid) -> Result<Grid, RecordFault>
    ensures { result ≡ outcome found grid }
{
    match found {
        Ok(()) => Ok(grid),
        Err(fault) => Err(fault),
    }
}
