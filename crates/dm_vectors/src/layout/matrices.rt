//! Placement in mapping matrices of any size: corners, absent anchors and the fixed square. What is laid and lifted is
//! tested with the modules of whole symbols.

use crate::claims::holds;
use dm_place::{Shape, Shapes, has_fixed_square};

/// The shapes of a mapping matrix, and those of 8 by 8 cells where there is none of this size.
fn shapes_of(rows: u16, columns: u16) -> Shapes {
    if 6 <= rows && rows <= 132 && 6 <= columns && columns <= 132 {
        Shapes::new(rows, columns)
    } else {
        Shapes::new(8, 8)
    }
}

/// Rows and columns of a matrix, its corner, and the sum of the row and column of the first anchor behind this.
type Corner = (u16, u16, Option<Shape>, u16);

/// Whether a matrix has this corner alone, just before the anchors whose row and column have this sum.
fn has_corner(row: &Corner) -> bool {
    let (rows, columns, corner, sum) = *row;
    let mut found = None;
    for shape in shapes_of(rows, columns) {
        if let Shape::Standard(row, column) = shape {
            if (row.saturating_add(column) < sum) == found.is_some() {
                return false;
            }
        } else if found.is_some() {
            return false;
        } else {
            found = Some(shape);
        }
    }
    found == corner
}

/// A sum that is larger than that of any row and column.
const NO_SUM: u16 = 300;

static CORNERS: [Corner; 9] = [
    (12, 12, Some(Shape::Corner1), 12),
    (20, 44, Some(Shape::Corner1), 20),
    (22, 22, Some(Shape::Corner2), 20),
    (6, 28, Some(Shape::Corner3), 4),
    (14, 44, Some(Shape::Corner3), 12),
    (6, 16, Some(Shape::Corner4), 12),
    (22, 56, Some(Shape::Corner4), 28),
    (10, 24, None, NO_SUM),
    (24, 36, None, NO_SUM),
];

#[test]
fn corners_by_what_rows_and_columns_leave_when_divided_by_8(rt: HostRuntime) {
    for row in &CORNERS {
        holds(&rt, has_corner(row));
    }
}

/// Rows and columns of a matrix, those of an anchor, and whether a standard shape has it.
type Anchor = (u16, u16, u16, u16, bool);

/// Whether a standard shape of a matrix has its anchor here, or none has.
fn is_right(anchor: &Anchor) -> bool {
    let (rows, columns, row, column, is_there) = *anchor;
    for shape in shapes_of(rows, columns) {
        if shape == Shape::Standard(row, column) {
            return is_there;
        }
    }
    !is_there
}

static ANCHORS: [Anchor; 8] = [
    (14, 14, 12, 0, false),
    (14, 14, 0, 12, false),
    (6, 28, 4, 0, false),
    (6, 28, 1, 7, true),
    (6, 16, 4, 0, true),
    (6, 16, 1, 15, false),
    (24, 36, 4, 0, true),
    (24, 36, 0, 4, true),
];

#[test]
fn anchors_are_absent_by_what_rows_and_columns_leave_when_divided_by_8(rt: HostRuntime) {
    for anchor in &ANCHORS {
        holds(&rt, is_right(anchor));
    }
}

#[test]
fn a_fixed_square_needs_rows_and_columns_of_2_modulo_4(rt: HostRuntime) {
    holds(&rt, has_fixed_square(10, 10) && has_fixed_square(22, 22));
    holds(&rt, !has_fixed_square(10, 24) && !has_fixed_square(24, 10));
    holds(&rt, !has_fixed_square(12, 12));
}
