//! The lines of a record, as rows of cells.

ghost use Rattle.std.specs.Prelude.{◌≡◌, ◌≢◌, ◌≤◌, ◌∷◌, ◌++◌, ◌↔◌, [], ℕ, Bool, true, false, List, IsTrue, length};
ghost use Rattle.std.specs.Prelude.{take};
ghost use Rattle.std.specs.Bool.{OnTrue, OnFalse};
ghost use Rattle.dm_text.specs.Records.{record_of};
ghost use Rattle.dm_text.specs.inner.OpenRecords.{AreCells, Continues, EndsLines, HoldsLines, is_ended, line_count};
ghost use Rattle.dm_text.specs.Texts.{last_line};
ghost use Rattle.dm_symbol.specs.Outcomes.{outcome};

use crate::record::RecordFault;
use crate::row_part::{BLOCK, RowPart};
use crate::text::LF;
use arrayvec::ArrayVec;
use dm_symbol::{Grid, LARGEST_SIDE};

/// Lines of the characters 0 and 1, of which the last one may be open, no more and no longer than the
/// largest side. They are kept as rows of cells, as [`Grid::set_rows`] takes them.
#[derive(Drop)]
pub(crate) struct Rows {
    /// A number for each line, in which the cell of column `c`, counted from 0 at the left, is the bit of
    /// weight 2^c, 1 for dark.
    rows: ArrayVec<u128, LARGEST_SIDE>,
    /// How long the first line is.
    first: u16,
    /// How long the last line is.
    last: u16,
    /// Whether a line that has ended differs in length from the first.
    differs: bool,
}

impl Rows {
    /// Begins with no line.
    pub(crate) fn new() -> Self
        ensures { HoldsLines result [] [] }
    {
        Rows {
            rows: ArrayVec::new(),
            first: 0,
            last: 0,
            differs: false,
        }
    }

    /// Whether there is no line.
    pub(crate) fn is_empty(&self) -> bool
        ensures { IsTrue result ↔ (line_count self.now ≡ 0) }
    {
        self.rows.is_empty()
    }

    /// Takes more cells, into a new line where the last line has ended; false
    /// where the lines are then too many or too long.
    pub(crate) fn push(&mut self, cells: RowPart, ended: bool) -> bool
        requires cells { (characters : List ℕ) × AreCells characters cells }
        requires lines { (lines : List (List ℕ)) × (rest : List ℕ)
            × HoldsLines self.old lines rest × (ended ≡ is_ended lines rest) }
        ensures { (lines : List (List ℕ)) (rest characters : List ℕ)
            → HoldsLines self.old lines rest → ended ≡ is_ended lines rest
            → AreCells characters cells → Continues result self.new lines (rest ++ characters) }
    {
        if ended || self.is_empty() {
            self.begin_line(cells)
        } else {
            self.lengthen_line(cells)
        }
    }

    /// Takes cells into a new line; false where the lines are then too many or too long, and nothing changes.
    fn begin_line(&mut self, cells: RowPart) -> bool
        requires cells { (characters : List ℕ) × AreCells characters cells }
        requires lines { (lines : List (List ℕ)) × HoldsLines self.old lines [] }
        ensures lines { (lines : List (List ℕ)) (characters : List ℕ)
            → HoldsLines self.old lines [] → AreCells characters cells
            → Continues result self.new lines characters }
        ensures same { OnFalse result (self.new ≡ self.old) }
    {
        if self.rows.is_full() || usize::from(cells.count) > LARGEST_SIDE {
            return false;
        }
        let first = if self.is_empty() {
            cells.count
        } else {
            self.first
        };
        self.rows.push(cells.bits);
        self.first = first;
        self.last = cells.count;
        true
    }

    /// Takes more cells into the last line; false where it is then too long.
    fn lengthen_line(&mut self, cells: RowPart) -> bool
        requires cells { (characters : List ℕ) × AreCells characters cells }
        requires lines { (lines : List (List ℕ)) × (x : ℕ) × (rest : List ℕ)
            × HoldsLines self.old lines (x ∷ rest) }
        ensures { (lines : List (List ℕ)) (x : ℕ) (rest characters : List ℕ)
            → HoldsLines self.old lines (x ∷ rest) → AreCells characters cells
            → Continues result self.new lines (x ∷ rest ++ characters) }
    {
        let column = self.last;
        let last = column + cells.count;
        if usize::from(last) > LARGEST_SIDE {
            return false;
        }
        let count = self.rows.len();
        let first = if count == 1 { last } else { self.first };
        self.rows.as_mut_slice()[count - 1] |= cells.bits << column;
        self.first = first;
        self.last = last;
        true
    }

    /// Takes the whole lines at the start of some bytes, each with its LF, as
    /// far as there is room for them, and says how many bytes they are.
    pub(crate) fn take_lines(&mut self, bytes: &[u8]) -> usize
        requires { (lines : List (List ℕ)) × HoldsLines self.old lines [] }
        ensures within { result ≤ length bytes.now }
        ensures ended { (lines : List (List ℕ)) → HoldsLines self.old lines []
            → EndsLines self.new lines (take result bytes.now) }
    {
        let mut at = 0;
        while let Some(cells) = RowPart::of_text(&bytes[at..]) {
            let end = at + usize::from(cells.count);
            if end == bytes.len() || bytes[end] != LF || !self.push_line(cells) {
                break;
            }
            let next = end + 1;
            at = next + self.take_even_lines(&bytes[next..]);
        }
        at
    }

    /// Takes the whole lines at the start of some bytes that are as long as the first line of all, each with its LF,
    /// and says how many bytes they are. That length being known, no line's end is searched for. How many lines it
    /// takes matters for speed alone: none where they are longer than a block, or where the lines differ already.
    fn take_even_lines(&mut self, bytes: &[u8]) -> usize
        requires { (lines : List (List ℕ)) × HoldsLines self.old lines [] }
        ensures within { result ≤ length bytes.now }
        ensures ended { (lines : List (List ℕ)) → HoldsLines self.old lines []
            → EndsLines self.new lines (take result bytes.now) }
    {
        let side = self.first;
        let mut at = 0;
        if self.differs || side == 0 || usize::from(side) > BLOCK {
            return at;
        }
        while let Some(line) = RowPart::of_line(&bytes[at..], side) {
            if !self.push_line(line) {
                break;
            }
            at += usize::from(line.count) + 1;
        }
        at
    }

    /// Takes a whole line; false where the lines are then too many or too long, and nothing changes.
    fn push_line(&mut self, line: RowPart) -> bool
        requires cells { (characters : List ℕ) × AreCells characters line }
        requires lines { (lines : List (List ℕ)) × HoldsLines self.old lines [] }
        ensures held { OnTrue result
            ((lines : List (List ℕ)) (characters : List ℕ) → HoldsLines self.old lines []
            → AreCells characters line → HoldsLines self.new (lines ++ characters ∷ []) []) }
        ensures same { OnFalse result (self.new ≡ self.old) }
    {
        if !self.begin_line(line) {
            return false;
        }
        self.end_line();
        true
    }

    /// Ends the last line.
    pub(crate) fn end_line(&mut self)
        ensures { (lines : List (List ℕ)) (rest : List ℕ) → HoldsLines self.old lines rest
            → rest ≢ [] → HoldsLines self.new (lines ++ rest ∷ []) [] }
    {
        if self.last != self.first {
            self.differs = true;
        }
    }

    /// Leaves the grid of these lines in `grid`. Where they make none, it may hold anything.
    pub(crate) fn grid_to(&self, grid: &mut Grid) -> Result<(), RecordFault>
        requires { (lines : List (List ℕ)) × (rest : List ℕ) × HoldsLines self.now lines rest }
        ensures { (lines : List (List ℕ)) (rest : List ℕ) → HoldsLines self.now lines rest
            → outcome result grid.new ≡ record_of (lines ++ last_line rest) }
    {
        let side = self.first;
        if self.differs || self.last != side || usize::from(side) != self.rows.len() {
            return Err(RecordFault::NotSquare);
        }
        match grid.set_rows(side, self.rows.as_slice()) {
            Ok(()) => Ok(()),
            Err(_) => Err(RecordFault::NoSuchSize(side)),
        }
    }

    /// Clears the lines.
    pub(crate) fn clear(&mut self)
        ensures { HoldsLines self.new [] [] }
    {
        self.rows.clear();
        self.first = 0;
        self.last = 0;
        self.differs = false;
    }
}
