//! Choices of sizes as numbers.

ghost use Rattle.std.specs.Prelude.{◌≡◌};
ghost use Rattle.ecc200_calls.specs.Choices.{choice_of};

use crate::how::How;
use dm_symbol::SizeChoice;

/// Gives the choice of sizes that the numbers stand for.
pub(crate) fn choice_of(how: How) -> Option<SizeChoice>
    ensures { result ≡ choice_of how }
{
    match how.shape {
        0 => Some(SizeChoice::Square),
        1 => Some(SizeChoice::Rectangle),
        2 => Some(SizeChoice::AnyRectangle),
        3 => Some(SizeChoice::Any),
        4 => Some(SizeChoice::Exact(how.rows, how.columns)),
        _ => None,
    }
}
