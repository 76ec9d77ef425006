//! Forms of writing as numbers.

ghost use Rattle.std.specs.Prelude.{◌≡◌};
ghost use Rattle.ecc200_calls.specs.Extents.{extent_of};
ghost use Rattle.ecc200_calls.specs.Writings.{form_of, smallest_form};

use crate::extent::extent_of;
use crate::fault::Fault;
use crate::how::How;
use dm_symbol::{Extent, Form, Profile};

/// Gives the form that the numbers stand for, or why there is none.
pub(crate) fn form_of(how: How) -> Result<Form, Fault>
    ensures { result ≡ form_of how }
{
    match how.form {
        0 => Ok(Form::Profiled(Profile::Ascii)),
        1 => Ok(Form::Profiled(Profile::Shorter)),
        2 => smallest_form(how.extent),
        _ => Err(Fault::no_such_profile(how.form)),
    }
}

/// Gives the smallest symbol for readers of the extent of a number.
fn smallest_form(number: u16) -> Result<Form, Fault>
    ensures { result ≡ smallest_form number (extent_of number) }
{
    match extent_of(number) {
        Some(extent) => Ok(Form::Smallest(extent)),
        None => Err(Fault::no_such_extent(number)),
    }
}
