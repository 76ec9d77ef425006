//! The fixed square of a mapping matrix.

ghost use Rattle.std.specs.Prelude.{◌≡◌};
ghost use Rattle.dm_place.specs.Border.{has_fixed_square as has_fixed_square_by};

/// Whether the lower right 2 by 2 cells of a mapping matrix of so many rows and columns belong to no codeword.
pub fn has_fixed_square(rows: u16, columns: u16) -> bool
    ensures { result ≡ has_fixed_square_by rows columns }
{
    rows % 4 == 2 && columns % 4 == 2
}
