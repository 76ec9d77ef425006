//! All bits of the codewords of a square, and where they lie.

ghost use Rattle.std.specs.Prelude.{◌≡◌, List};
ghost use Rattle.std.specs.Iterator.{YieldsFirst, item_count};
ghost use Rattle.dm_layout.specs.Placement.{places_in_order};
ghost use Rattle.dm_layout.specs.inner.Walking.{places_left, CellsAreSafe};
ghost use Rattle.dm_place.specs.declared.cells.Place.{Place};

use crate::grids::size::Size;
pub use dm_place::Place;
use dm_place::{Cell, Shapes};
use std::marker::Model;

/// The places of all bits of all codewords of a symbol, by codeword and then by bit: an iterator, which ends after 8
/// places for each codeword (ISO/IEC 16022, module placement). In contracts it is the list of the places that are left.
#[derive(Drop)]
pub struct Cells {
    shapes: Shapes,
    mapping: u16,
    /// The cells of the current codeword.
    current: [Cell; 8],
    /// How many codewords the walk has given, with the current one.
    taken: u16,
    /// How many bits of the current codeword have been given.
    bit: u8,
}

impl Model for Cells {
    ghost Value = { List Place };

    ghost view = { λ s. places_left s.mapping s.current s.taken s.bit s.shapes };

    ghost invariant = { λ s. CellsAreSafe s.mapping s.current s.taken s.bit s.shapes };
}

impl Cells {
    /// Gives all places of a symbol of this size.
    pub fn new(size: Size) -> Cells
        ensures { result ≡ places_in_order size.mapping }
    {
        let mapping = size.mapping();
        Cells {
            shapes: Shapes::new(mapping, mapping),
            mapping,
            current: [Cell { row: 0, column: 0 }; 8],
            taken: 0,
            bit: 8,
        }
    }
}

impl Iterator for Cells {
    type Item = Place;

    ghost next_gives = { YieldsFirst (λ s. s) };

    ghost remaining = { item_count (λ s. s) };

    /// Gives the next place.
    #[inline]
    fn next(&mut self) -> Option<Place> {
        if self.bit == 8 {
            let shape = self.shapes.next()?;
            self.current = shape.cells(self.mapping, self.mapping);
            self.taken += 1;
            self.bit = 0;
        }
        let cell = self.current[self.bit as usize];
        self.bit += 1;
        Some(Place {
            word: self.taken - 1,
            bit: self.bit,
            row: cell.row,
            column: cell.column,
        })
    }
}
