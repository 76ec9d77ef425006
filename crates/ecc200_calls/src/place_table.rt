//! What each module of a symbol is.

ghost use Rattle.std.specs.Prelude.{◌≡◌, ◌+◌, ◌*◌, ◌≤◌, ◌<◌, ℕ, get_or, length};
ghost use Rattle.dm_place.specs.Placement.{CellsInside, bits_from, places_in_order};
ghost use Rattle.dm_layout.specs.symbols.Sizes.{area, mapping_columns, mapping_rows};
ghost use Rattle.ecc200_calls.specs.Places.{IsPlacesResult, nothing, place_at};
ghost use Rattle.ecc200_calls.specs.inner.PlaceSteps.{structure_place, with_bits};

use crate::fault::Fault;
use dm_layout::symbols::{MOST_MODULES, SymbolSize, border_colour, symbol_column, symbol_row};
use dm_place::{Cell, Shapes};

/// What a module is: the bit of a codeword, a module of a border, or of the fixed square.
#[repr(C)]
#[derive(Clone, Copy)]
pub struct PlaceOut {
    pub codeword: u16,
    pub bit: u8,
    pub kind: u8,
}

/// The kind of a bit of a codeword.
const BIT: u8 = 1;

/// The kind of a light module of a border.
const BORDER_LIGHT: u8 = 2;

/// The kind of a dark module of a border.
const BORDER_DARK: u8 = 3;

/// The kind of a light module of the fixed square.
const FIXED_LIGHT: u8 = 4;

/// The kind of a dark module of the fixed square.
const FIXED_DARK: u8 = 5;

/// What each module of a symbol is, row by row from the top. After a fault rows and columns are 0.
#[repr(C)]
#[derive(Drop)]
pub struct PlacesOut {
    pub fault: Fault,
    pub rows: u16,
    pub columns: u16,
    pub places: [PlaceOut; MOST_MODULES],
}

/// Writes what each module of a symbol with these rows and columns is.
pub fn places(rows: u16, columns: u16, out: &mut PlacesOut) -> u16
    ensures out { IsPlacesResult rows columns out.old out.new }
    ensures code { result ≡ out.new.fault.code }
{
    match SymbolSize::of(rows, columns) {
        Some(size) => {
            out.fault = Fault::none();
            out.rows = rows;
            out.columns = columns;
            put_structure(&mut out.places, size);
            put_bits(&mut out.places, size);
        }
        None => {
            out.fault = Fault::no_such_size(rows, columns);
            out.rows = 0;
            out.columns = 0;
        }
    }
    out.fault.code
}

/// Writes the modules of the borders, and all others as if they were modules of the fixed square.
fn put_structure(places: &mut [PlaceOut], size: SymbolSize)
    requires { area size ≤ length places.old }
    ensures put { (row column : ℕ) → row < size.rows → column < size.columns
        → place_at size places.new row column ≡ structure_place size row column }
    ensures behind { (i : ℕ) → area size ≤ i
        → get_or places.new i nothing ≡ get_or places.old i nothing }
{
    for row in 0..size.rows() {
        put_structure_row(places, size, row);
    }
}

/// Writes one row of them.
fn put_structure_row(places: &mut [PlaceOut], size: SymbolSize, row: u16)
    requires row { row < size.rows }
    requires room { area size ≤ length places.old }
    ensures put { (column : ℕ) → column < size.columns
        → place_at size places.new row column ≡ structure_place size row column }
    ensures before { (i : ℕ) → i < row * size.columns
        → get_or places.new i nothing ≡ get_or places.old i nothing }
    ensures behind { (i : ℕ) → (row + 1) * size.columns ≤ i
        → get_or places.new i nothing ≡ get_or places.old i nothing }
{
    let start = usize::from(row) * usize::from(size.columns());
    for column in 0..size.columns() {
        places[start + usize::from(column)] = structure_place(size, row, column);
    }
}

/// Gives a module of a border, or else one of the fixed square, which only squares have, and whose dark modules lie on
/// the diagonal.
fn structure_place(size: SymbolSize, row: u16, column: u16) -> PlaceOut
    ensures { result ≡ structure_place size row column }
{
    let kind = match border_colour(size, row, column) {
        Some(true) => BORDER_DARK,
        Some(false) => BORDER_LIGHT,
        None if row == column => FIXED_DARK,
        None => FIXED_LIGHT,
    };
    PlaceOut {
        codeword: 0,
        bit: 0,
        kind,
    }
}

/// Writes the bits of the codewords where they lie.
fn put_bits(places: &mut [PlaceOut], size: SymbolSize)
    requires { area size ≤ length places.old }
    ensures { places.new
        ≡ with_bits size (places_in_order (mapping_rows size) (mapping_columns size)) places.old }
{
    let rows = size.mapping_rows();
    let columns = size.mapping_columns();
    let mut word = 0;
    for shape in Shapes::new(rows, columns) {
        put_word(places, size, word, &shape.cells(rows, columns));
        word += 1;
    }
}

/// Writes the bits of a codeword, which lie in these cells of the mapping matrix.
fn put_word(places: &mut [PlaceOut], size: SymbolSize, word: u16, cells: &[Cell; 8])
    requires room { area size ≤ length places.old }
    requires inside { CellsInside (mapping_rows size) (mapping_columns size) cells.now }
    ensures { places.new ≡ with_bits size (bits_from word 0 cells.now) places.old }
{
    let columns = usize::from(size.columns());
    let mut bit = 0;
    for cell in cells {
        bit += 1;
        let row = usize::from(symbol_row(size, cell.row));
        let column = usize::from(symbol_column(size, cell.column));
        places[row * columns + column] = PlaceOut {
            codeword: word,
            bit,
            kind: BIT,
        };
    }
}
