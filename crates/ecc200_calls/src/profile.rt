//! Profiles as numbers.

ghost use Rattle.std.specs.Prelude.{◌≡◌};
ghost use Rattle.ecc200_calls.specs.Symbols.{profile_of};

use dm_symbol::Profile;

/// Gives the profile that a number stands for.
pub(crate) fn profile_of(number: u16) -> Option<Profile>
    ensures { result ≡ profile_of number }
{
    match number {
        0 => Some(Profile::Ascii),
        1 => Some(Profile::Shorter),
        _ => None,
    }
}
