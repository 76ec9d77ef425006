//! Damage that is known: a torn corner, a blot, glare, and damage up to what can be restored.

use crate::chance::Chance;
use crate::digest::Digest;
use crate::library::{Caller, SQUARE, exact};
use crate::texts::{Text, scanned, serial};

/// How many squares a round has.
const SQUARES: usize = 8;

/// The rectangles of a round, and of how many letters and digits their messages are.
const RECTANGLES: [(u16, u16, u32); 3] = [(8, 32, 8), (16, 48, 40), (26, 64, 90)];

/// How many damaged scans there are of a symbol.
const SCANS: usize = 3;

/// A part of a symbol of which nothing is seen.
#[derive(Clone, Copy)]
enum Lost {
    /// The modules whose distance from the upper right corner, along rows and columns together, is smaller.
    Corner(u32),
    /// The modules within a distance, given by its square, of a module.
    Blot(u32, u32, u32),
    /// So many columns from one on.
    Glare(u32, u32),
}

/// Gives so many hundredths of a number.
fn part_of(number: u32, percent: u32) -> u32 {
    number.saturating_mul(percent) / 100
}

impl Lost {
    /// Gives some part of a symbol of so many rows and columns, of a twentieth to a sixth of it.
    fn some(rows: u16, columns: u16, chance: &mut Chance) -> Lost {
        let short = u32::from(rows.min(columns));
        let rows = u32::from(rows).max(1);
        let columns = u32::from(columns).max(1);
        match chance.below(3) {
            0 => Lost::Corner(part_of(short, 30 + chance.below(25))),
            1 => {
                let radius = part_of(short, 13 + chance.below(8));
                let square = radius.saturating_mul(radius).saturating_add(1);
                Lost::Blot(chance.below(rows), chance.below(columns), square)
            }
            _ => {
                let count = part_of(columns, 4 + chance.below(8)).saturating_add(1);
                Lost::Glare(chance.below(columns), count)
            }
        }
    }

    /// Whether a module lies in the part.
    fn covers(self, row: u32, column: u32, columns: u32) -> bool {
        match self {
            Lost::Corner(distance) => row.saturating_add(columns.saturating_sub(column)) < distance,
            Lost::Blot(middle, across, square) => {
                let down = row.abs_diff(middle);
                let along = column.abs_diff(across);
                down.saturating_mul(down)
                    .saturating_add(along.saturating_mul(along))
                    < square
            }
            Lost::Glare(first, count) => column >= first && column - first < count,
        }
    }
}

/// Writes the symbols of a round, and reads scans of each of which parts are lost and one or two modules wrong.
pub(crate) fn round(caller: &mut Caller, chance: &mut Chance, digest: &mut Digest) {
    let mut text = Text::new();
    for _ in 0..SQUARES {
        scanned(&mut text, chance);
        caller.write(text.as_slice(), SQUARE, digest);
        scan(caller, chance, digest);
    }
    for (rows, columns, count) in RECTANGLES {
        serial(&mut text, count, chance);
        caller.write(text.as_slice(), exact(rows, columns), digest);
        scan(caller, chance, digest);
    }
}

/// Reads damaged scans of the symbol that was written.
fn scan(caller: &mut Caller, chance: &mut Chance, digest: &mut Digest) {
    for _ in 0..SCANS {
        caller.renew();
        let lost = Lost::some(caller.rows(), caller.columns(), chance);
        lose(caller, lost);
        let count = chance.place(3);
        caller.turn_some(count, chance);
        caller.read_doubtful(digest);
    }
}

/// Makes the modules of a part light and doubtful.
fn lose(caller: &mut Caller, lost: Lost) {
    let columns = caller.columns();
    for row in 0..caller.rows() {
        lose_in_row(caller, lost, row, columns);
    }
}

/// Does so in a row.
fn lose_in_row(caller: &mut Caller, lost: Lost, row: u16, columns: u16) {
    for column in 0..columns {
        if lost.covers(u32::from(row), u32::from(column), u32::from(columns)) {
            caller.lose(usize::from(row) * usize::from(columns) + usize::from(column));
        }
    }
}
