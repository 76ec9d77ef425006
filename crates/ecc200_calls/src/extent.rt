//! Extents as numbers.

ghost use Rattle.std.specs.Prelude.{◌≡◌};
ghost use Rattle.ecc200_calls.specs.Extents.{extent_of};

use dm_symbol::Extent;

/// Gives the extent that a number stands for.
pub(crate) fn extent_of(number: u16) -> Option<Extent>
    ensures { result ≡ extent_of number }
{
    match number {
        0 => Some(Extent::Wide),
        1 => Some(Extent::Usual),
        _ => None,
    }
}
