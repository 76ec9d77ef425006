//! Facts about the definitions of the placement, for every size.

ghost use Rattle.std.specs.Prelude.{◌≡◌, ℕ, All, length};
ghost use Rattle.dm_place.specs.Sides.{sides_table};
ghost use Rattle.dm_place.specs.Placement.{shapes, places_in_order, EachCellOnce, IsPlaceList};
ghost use Rattle.dm_place.specs.Holding.{EachMatrixHolds, HeldWordsAreOne};
ghost use Rattle.dm_place.specs.Sweep.{Sweeps};

/// The sweep of the standard places the shapes of the closed form, in its order, and ends.
pub fn sweep_is_the_closed_form()
    ensures { All (λ size. Sweeps size.rows size.columns (shapes size.rows size.columns)) sides_table }
{}

/// Each cell of the mapping matrix is the place of exactly one bit of one codeword, or lies in the fixed
/// square and is the place of none; and each place lies in the matrix.
pub fn each_cell_is_one_place()
    ensures { All (λ size. EachCellOnce size.rows size.columns) sides_table }
{}

/// There are as many shapes as data and check codewords.
pub fn shapes_are_the_codewords()
    ensures { All (λ size. length (shapes size.rows size.columns) ≡ size.count) sides_table }
{}

/// The list of places by codeword and then by bit is that of the places of all bits.
pub fn places_come_in_order()
    ensures { (rows columns : ℕ) → IsPlaceList rows columns (places_in_order rows columns) }
{}

/// Each matrix holds some codewords.
pub fn each_matrix_holds_codewords()
    ensures { EachMatrixHolds }
{}

/// A matrix holds only one list of codewords.
pub fn held_codewords_are_one()
    ensures { HeldWordsAreOne }
{}
