//! The shapes of a mapping matrix in the order of the codewords, by the closed form.

ghost use Rattle.std.specs.Prelude.{◌≡◌, ℕ, List, true, false, ◌+◌, ◌-◌, ◌*◌, ◌%◌, ◌<◌, ◌≤◌, ◌⊎◌, ◌++◌, IfSome};
ghost use Rattle.std.specs.Option.{option_to_list};
ghost use Rattle.std.specs.Iterator.{YieldsFirst, item_count};
ghost use Rattle.dm_place.specs.Placement.{shapes as shapes_by, corner_before, in_even_row, in_odd_row};
ghost use Rattle.dm_place.specs.Placement.{is_absent as is_absent_by, AnchorInside};
ghost use Rattle.dm_place.specs.Sides.{SidesAreSafe};
ghost use Rattle.dm_place.specs.inner.Walking.{shapes_left, steps_left, StepsAreSafe};
ghost use Rattle.dm_place.specs.declared.shape.Shape.{Shape};

use crate::shape::Shape;
use std::marker::Model;

/// What comes next of the shapes of a sum.
#[derive(Clone, Copy)]
pub(crate) enum Part {
    /// The corner, if one comes just before the anchors.
    Corner,
    /// An anchor in an even row, by its column.
    Even,
    /// An anchor in an odd row, by its row.
    Odd,
}

/// Where the walk over the closed form is.
#[derive(Drop)]
pub(crate) struct Steps {
    rows: u16,
    columns: u16,
    /// The sum of row and column of the anchors that come next, a multiple of 4, since no other has shapes.
    sum: u16,
    part: Part,
    /// The column in which the next anchor of an even row may lie, an even one, or the row of the next one of an odd
    /// row.
    index: u16,
}

/// The shapes of the codewords of a mapping matrix, in their order: an iterator, which ends after one for each codeword
/// (ISO/IEC 16022, module placement). In contracts it is the list of the shapes that are left.
#[derive(Drop)]
pub struct Shapes {
    steps: Steps,
}

impl Model for Shapes {
    ghost use Rattle.dm_place.specs.declared.shape.Shape.{Shape};
    ghost use Rattle.std.specs.Prelude.{List};
    ghost use Rattle.dm_place.specs.inner.Walking.{shapes_left, StepsAreSafe};

    ghost Value = { List Shape };

    ghost view = { λ s. shapes_left s.steps };

    ghost invariant = { λ s. StepsAreSafe s.steps };
}

/// Gives the corner that comes just before the anchors of a sum.
fn corner(rows: u16, columns: u16, sum: u16) -> Option<Shape>
    requires rows { 6 ≤ rows }
    requires most { rows ≤ 132 }
    ensures value { option_to_list result ≡ corner_before rows columns sum }
    ensures anchor { IfSome result (AnchorInside rows columns) }
{
    if rows % 8 == 4 && columns % 8 == 4 && sum == rows {
        Some(Shape::Corner1)
    } else if rows % 8 == 6 && columns % 8 == 6 && sum == rows - 2 {
        Some(Shape::Corner2)
    } else if rows % 8 == 6 && columns % 8 == 4 && sum == rows - 2 {
        Some(Shape::Corner3)
    } else if rows % 8 == 6 && columns % 8 == 0 && sum == rows + 6 {
        Some(Shape::Corner4)
    } else {
        None
    }
}

/// Whether a cell is absent, that is, no anchor although it lies where one would.
fn is_absent(rows: u16, columns: u16, row: u16, column: u16) -> bool
    requires rows { 6 ≤ rows }
    requires columns { 6 ≤ columns }
    ensures { result ≡ is_absent_by rows columns row column }
{
    rows % 8 == 6
        && (row == rows - 2 && column == 0 && (columns % 8 == 6 || columns % 8 == 4)
            || columns % 8 == 6 && row == 0 && column == columns - 2
            || columns % 8 == 0 && row == 1 && column == columns - 1)
}

/// Gives the first even column in which an anchor of a sum may lie.
fn first_even_column(rows: u16, sum: u16) -> u16
    requires { sum ≤ 300 }
    ensures even { result % 2 ≡ 0 }
    ensures before { (c : ℕ) → c < result → c % 2 ≡ 0 → rows + c ≤ sum }
    ensures inside { sum < rows + result }
    ensures most { result + rows ≤ sum + 2 ⊎ result ≡ 0 }
{
    if rows <= sum {
        (sum + 2 - rows) / 2 * 2
    } else {
        0
    }
}

/// Gives the first odd row in which an anchor of a sum may lie.
fn first_odd_row(columns: u16, sum: u16) -> u16
    requires { sum ≤ 300 }
    ensures odd { result % 2 ≡ 1 }
    ensures before { (r : ℕ) → r < result → r % 2 ≡ 1 → columns + r ≤ sum }
    ensures inside { sum < columns + result }
    ensures most { result + columns ≤ sum + 2 ⊎ result ≡ 1 }
{
    if columns <= sum {
        (sum + 1 - columns) / 2 * 2 + 1
    } else {
        1
    }
}

/// Whether a column lies past the last, or the anchor in it would lie above the first row; a row likewise.
fn is_past(count: u16, sum: u16, index: u16) -> bool
    ensures past { result ≡ true → (count ≤ index) ⊎ (sum < index) }
    ensures inside { result ≡ false → index < count }
    ensures above { result ≡ false → index ≤ sum }
{
    count <= index || sum < index
}

/// Gives the standard shape of a sum whose anchor lies in this column and in an even row, if one does.
#[inline(always)]
fn in_even_row(rows: u16, columns: u16, sum: u16, column: u16) -> Option<Shape>
    requires rows { 6 ≤ rows }
    requires columns { 6 ≤ columns }
    requires sum { sum % 8 ≡ 4 }
    requires even { column % 2 ≡ 0 }
    requires above { column ≤ sum }
    requires row { sum < rows + column }
    requires column { column < columns }
    ensures value { option_to_list result ≡ in_even_row rows columns sum column }
    ensures anchor { IfSome result (AnchorInside rows columns) }
{
    let row = sum - column;
    if is_absent(rows, columns, row, column) {
        None
    } else {
        Some(Shape::Standard(row, column))
    }
}

/// Gives the standard shape of a sum whose anchor lies in this row, an odd one, if one does.
#[inline(always)]
fn in_odd_row(rows: u16, columns: u16, sum: u16, row: u16) -> Option<Shape>
    requires rows { 6 ≤ rows }
    requires columns { 6 ≤ columns }
    requires sum { sum % 8 ≡ 0 }
    requires odd { row % 2 ≡ 1 }
    requires above { row ≤ sum }
    requires column { sum < columns + row }
    requires row { row < rows }
    ensures value { option_to_list result ≡ in_odd_row rows columns sum row }
    ensures anchor { IfSome result (AnchorInside rows columns) }
{
    let column = sum - row;
    if is_absent(rows, columns, row, column) {
        None
    } else {
        Some(Shape::Standard(row, column))
    }
}

impl Steps {
    /// Starts before the first shape of a mapping matrix of so many rows and columns.
    pub(crate) fn new(rows: u16, columns: u16) -> Steps
        requires { SidesAreSafe rows columns }
        ensures left { shapes_left result ≡ shapes_by rows columns }
        ensures safe { StepsAreSafe result }
    {
        Steps {
            rows,
            columns,
            sum: 0,
            part: Part::Corner,
            index: 0,
        }
    }

    /// Makes one step, and gives the shape that it comes by, if it comes by one.
    #[inline(always)]
    fn step(&mut self) -> Option<Shape>
        requires safe { StepsAreSafe self.old }
        requires more { self.old.sum + 1 < self.old.rows + self.old.columns }
        ensures left { shapes_left self.old ≡ option_to_list result ++ shapes_left self.new }
        ensures safe { StepsAreSafe self.new }
        ensures rows { self.new.rows ≡ self.old.rows }
        ensures columns { self.new.columns ≡ self.old.columns }
        ensures anchor { IfSome result (AnchorInside self.old.rows self.old.columns) }
        ensures fewer { steps_left self.new.rows self.new.columns self.new.sum self.new.part self.new.index
            < steps_left self.old.rows self.old.columns self.old.sum self.old.part self.old.index }
    {
        let index = self.index;
        match self.part {
            Part::Corner => {
                let found = corner(self.rows, self.columns, self.sum);
                // The anchors of a sum lie all in even rows or all in odd ones.
                if self.sum % 8 == 4 {
                    self.part = Part::Even;
                    self.index = first_even_column(self.rows, self.sum);
                } else {
                    self.part = Part::Odd;
                    self.index = first_odd_row(self.columns, self.sum);
                }
                found
            }
            Part::Even => {
                if is_past(self.columns, self.sum, index) {
                    self.part = Part::Corner;
                    self.sum += 4;
                    None
                } else {
                    self.index = index + 2;
                    in_even_row(self.rows, self.columns, self.sum, index)
                }
            }
            Part::Odd => {
                if is_past(self.rows, self.sum, index) {
                    self.part = Part::Corner;
                    self.sum += 4;
                    None
                } else {
                    self.index = index + 2;
                    in_odd_row(self.rows, self.columns, self.sum, index)
                }
            }
        }
    }

    /// Gives the next shape.
    #[inline(always)]
    fn next_shape(&mut self) -> Option<Shape>
        requires safe { StepsAreSafe self.old }
        ensures left { YieldsFirst shapes_left self.old result self.new }
        ensures safe { StepsAreSafe self.new }
        ensures anchor { IfSome result (AnchorInside self.old.rows self.old.columns) }
    {
        while self.sum + 1 < self.rows + self.columns {
            if let Some(shape) = self.step() {
                return Some(shape);
            }
        }
        None
    }
}

impl Shapes {
    /// Gives all shapes of a mapping matrix of so many rows and columns, each 6 to 132.
    pub fn new(rows: u16, columns: u16) -> Shapes
        requires { SidesAreSafe rows columns }
        ensures { result ≡ shapes_by rows columns }
    {
        Shapes {
            steps: Steps::new(rows, columns),
        }
    }
}

impl Iterator for Shapes {
    type Item = Shape;

    ghost next_gives = { YieldsFirst (λ s. s) };

    ghost remaining = { item_count (λ s. s) };

    /// Gives the next shape.
    #[inline(always)]
    fn next(&mut self) -> Option<Shape> {
        self.steps.next_shape()
    }
}
