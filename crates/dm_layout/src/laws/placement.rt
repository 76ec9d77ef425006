//! Facts about the definitions of the placement, for every size.

ghost use Rattle.std.specs.Prelude.{◌≡◌, ℕ, All, length};
ghost use Rattle.dm_layout.specs.Sizes.{size_table, codeword_count};
ghost use Rattle.dm_layout.specs.Placement.{shapes, places_in_order, EachCellOnce, IsPlaceList, Sweeps};
ghost use Rattle.dm_layout.specs.Modules.{EachModuleHasOneKind};

/// The sweep of the standard places the shapes of the closed form, in its order, and ends.
pub fn sweep_is_the_closed_form()
    ensures { All (λ size. Sweeps size.mapping (shapes size.mapping)) size_table }
{}

/// Each cell of the mapping square is the place of exactly one bit of one codeword, or lies in the fixed
/// square and is the place of none; and each place lies in the square.
pub fn each_cell_is_one_place()
    ensures { All (λ size. EachCellOnce size.mapping) size_table }
{}

/// There are as many shapes as data and check codewords.
pub fn shapes_are_the_codewords()
    ensures { All (λ size. length (shapes size.mapping) ≡ codeword_count size) size_table }
{}

/// The list of places by codeword and then by bit, which `Cells` gives, is that of the places of all bits.
pub fn places_come_in_order()
    ensures { (n : ℕ) → IsPlaceList n (places_in_order n) }
{}

/// Each module of a square is exactly one of these: a module of a border, a module of the fixed square, or one bit of
/// one codeword.
pub fn each_module_has_one_kind()
    ensures { EachModuleHasOneKind }
{}
