//! A record of a grid text, as it comes.

ghost use Rattle.std.specs.Prelude.{◌≡◌, ◌≢◌, ◌∷◌, ◌++◌, [], ℕ, Bool, true, false, List, IsTrue, ◌↔◌, ◌+◌, ◌<◌, ◌≤◌};
ghost use Rattle.std.specs.Prelude.{IfNone, IfSome, length, take};
ghost use Rattle.std.specs.Bool.{OnTrue, OnFalse};
ghost use Rattle.dm_text.specs.Records.{IsClosedRecord, is_foreign, record_of};
ghost use Rattle.dm_text.specs.RecordFacts.{AreRecordFacts, facts_of_record};
ghost use Rattle.dm_text.specs.Texts.{last_line, lf};
ghost use Rattle.dm_text.specs.inner.OpenRecords.{AreCells, EndsAt};
ghost use Rattle.dm_symbol.specs.Outcomes.{outcome};

use crate::row_part::{RowPart, characters_of_line};
use crate::rows::Rows;
use crate::text::LF;
use dm_symbol::Grid;
use std::marker::Model;

/// Why a record is no grid. Of several faults in a record the first in this order is given.
#[derive(Clone, Copy, Debug, PartialEq, Eq)]
pub enum RecordFault {
    /// A byte other than 0, 1 and LF stands in the record.
    Character,
    /// A line is longer than the largest side, or there are more lines than that.
    Large,
    /// The lines make no square: one of them is longer or shorter than the number of lines.
    NotSquare,
    /// The lines make a square of this side, which no size has.
    NoSuchSize(u16),
}

/// What stands in an open record.
#[derive(Drop)]
enum Contents {
    Foreign,
    Large,
    Cells(Rows),
}

/// A record whose end has not come yet, or none.
#[derive(Drop)]
pub(crate) struct OpenRecord {
    /// Its last byte is LF.
    ended: bool,
    contents: Contents,
}

impl Model for OpenRecord {
    ghost use Rattle.dm_text.specs.RecordFacts.{RecordFacts};
    ghost use Rattle.dm_text.specs.inner.OpenRecords.{IsRecordState, contents_seen};

    ghost Value = { RecordFacts };

    ghost view = { λ r. record { ended = r.ended; contents = contents_seen r.contents } };

    ghost invariant = { λ r. IsRecordState r.ended r.contents };
}

impl OpenRecord {
    /// Begins with no record.
    pub(crate) fn new() -> Self
        ensures { AreRecordFacts [] result }
    {
        OpenRecord {
            ended: false,
            contents: Contents::Cells(Rows::new()),
        }
    }

    /// Takes one more byte, and says whether it closes the record, which then stays as it is.
    pub(crate) fn push(&mut self, byte: u8) -> bool
        ensures open { OnFalse result
            ((text : List ℕ) → AreRecordFacts text self.old
            → AreRecordFacts (text ++ byte ∷ []) self.new) }
        ensures same { OnTrue result (self.new ≡ self.old) }
        ensures closes { OnTrue result
            ((text : List ℕ) → AreRecordFacts text self.old
            → (lines : List (List ℕ)) × IsClosedRecord (text ++ byte ∷ []) lines
            × (self.old ≡ facts_of_record lines [])) }
    {
        if byte != LF {
            self.push_character(byte);
            return false;
        }
        if self.ended {
            return true;
        }
        self.end_line();
        false
    }

    /// Takes more bytes, up to and including the first one that closes the record. Where one does, says how many stand
    /// before it; the record is then as it was before that byte.
    pub(crate) fn take(&mut self, bytes: &[u8]) -> Option<usize>
        ensures open { IfNone result
            ((text : List ℕ) → AreRecordFacts text self.old
            → AreRecordFacts (text ++ bytes.now) self.new) }
        ensures within { IfSome result (λ end. end < length bytes.now) }
        ensures closes { IfSome result
            (λ end. (text : List ℕ) → AreRecordFacts text self.old
            → EndsAt (text ++ take end bytes.now) (text ++ take (end + 1) bytes.now) self.new) }
    {
        let mut at = 0;
        while at < bytes.len() {
            let line = at + self.take_lines(&bytes[at..]);
            let end = line + self.take_characters(&bytes[line..]);
            if end == bytes.len() {
                return None;
            }
            if self.push(bytes[end]) {
                return Some(end);
            }
            at = end + 1;
        }
        None
    }

    /// Takes whole lines at the start of some bytes, each together with its LF, and says how many bytes they are. How
    /// many lines it takes matters for speed alone: none where a line stands open, or where the record can't be a grid
    /// any more.
    fn take_lines(&mut self, bytes: &[u8]) -> usize
        ensures within { result ≤ length bytes.now }
        ensures grown { (text : List ℕ) → AreRecordFacts text self.old
            → AreRecordFacts (text ++ take result bytes.now) self.new }
    {
        if let Contents::Cells(rows) = &mut self.contents {
            if self.ended || rows.is_empty() {
                let taken = rows.take_lines(bytes);
                self.ended = !rows.is_empty();
                return taken;
            }
        }
        0
    }

    /// Takes characters at the start of some bytes together, and says how many they are, which matters for speed alone:
    /// cells, but where a foreign character already stands in the record whatever comes before LF.
    fn take_characters(&mut self, bytes: &[u8]) -> usize
        ensures within { result ≤ length bytes.now }
        ensures grown { (text : List ℕ) → AreRecordFacts text self.old
            → AreRecordFacts (text ++ take result bytes.now) self.new }
    {
        if let Contents::Foreign = self.contents {
            let count = characters_of_line(bytes);
            if count == 0 {
                return 0;
            }
            self.ended = false;
            return count;
        }
        let Some(cells) = RowPart::of_text(bytes) else {
            return 0;
        };
        self.push_cells(cells);
        usize::from(cells.count)
    }

    /// Takes cells, into a new line where the last line has ended.
    fn push_cells(&mut self, cells: RowPart)
        requires { (characters : List ℕ) × AreCells characters cells }
        ensures { (text characters : List ℕ) → AreRecordFacts text self.old
            → AreCells characters cells → AreRecordFacts (text ++ characters) self.new }
    {
        let ended = self.ended;
        self.ended = false;
        if let Contents::Cells(rows) = &mut self.contents {
            if !rows.push(cells, ended) {
                self.contents = Contents::Large;
            }
        }
    }

    /// Takes a byte that isn't LF.
    fn push_character(&mut self, byte: u8)
        requires { byte ≢ lf }
        ensures { (text : List ℕ) → AreRecordFacts text self.old
            → AreRecordFacts (text ++ byte ∷ []) self.new }
    {
        if is_foreign(byte) {
            self.ended = false;
            self.contents = Contents::Foreign;
            return;
        }
        self.push_cells(RowPart::of_character(byte));
    }

    /// Takes an LF after a line, or before all lines.
    fn end_line(&mut self)
        requires { self.old.ended ≡ false }
        ensures { (text : List ℕ) → AreRecordFacts text self.old
            → AreRecordFacts (text ++ lf ∷ []) self.new }
    {
        match &mut self.contents {
            Contents::Cells(cells) => {
                if cells.is_empty() {
                    return;
                }
                cells.end_line();
                self.ended = true;
            }
            _ => self.ended = true,
        }
    }

    /// Whether no record is open.
    pub(crate) fn is_empty(&self) -> bool
        ensures { (lines : List (List ℕ)) (rest : List ℕ) → self.now ≡ facts_of_record lines rest
            → (IsTrue result ↔ (lines ++ last_line rest ≡ [])) }
    {
        match &self.contents {
            Contents::Cells(cells) => cells.is_empty(),
            _ => false,
        }
    }

    /// Ends the record, so that none is open: leaves its grid in `grid`, or gives why it is none.
    pub(crate) fn close_to(&mut self, grid: &mut Grid) -> Result<(), RecordFault>
        ensures meaning { (lines : List (List ℕ)) (rest : List ℕ)
            → self.old ≡ facts_of_record lines rest
            → outcome result grid.new ≡ record_of (lines ++ last_line rest) }
        ensures empty { AreRecordFacts [] self.new }
    {
        let found = self.grid_to(grid);
        self.clear();
        found
    }

    /// Leaves the grid of the record as it is so far in `grid`.
    fn grid_to(&self, grid: &mut Grid) -> Result<(), RecordFault>
        ensures { (lines : List (List ℕ)) (rest : List ℕ) → self.now ≡ facts_of_record lines rest
            → outcome result grid.new ≡ record_of (lines ++ last_line rest) }
    {
        match &self.contents {
            Contents::Foreign => Err(RecordFault::Character),
            Contents::Large => Err(RecordFault::Large),
            Contents::Cells(rows) => rows.grid_to(grid),
        }
    }

    /// Clears the record, so that none is open.
    fn clear(&mut self)
        ensures { AreRecordFacts [] self.new }
    {
        self.ended = false;
        match &mut self.contents {
            Contents::Cells(rows) => rows.clear(),
            _ => self.contents = Contents::Cells(Rows::new()),
        }
    }
}

/// Whether a character is neither 0 nor 1.
fn is_foreign(character: u8) -> bool
    ensures { result ≡ is_foreign character }
{
    !(character == b'0' || character == b'1')
}
