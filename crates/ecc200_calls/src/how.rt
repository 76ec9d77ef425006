//! How a content is written, as numbers.

ghost use Rattle.std.specs.Prelude.{IfErr, IfOk};
ghost use Rattle.ecc200_calls.specs.Writings.{AskFor, IsHowFault};

use crate::choice::choice_of;
use crate::fault::Fault;
use crate::form::form_of;
use crate::head::{HeadNumbers, head_of};
use dm_symbol::{Form, Head, SizeChoice};

/// How a content is written: the number of a form; the number of a choice of sizes; the rows and columns of the size
/// that is taken where the choice is of one size; the number of the extent for whose readers the smallest symbol is,
/// where that is the form; and the head, all 0 where the content has none.
#[repr(C)]
#[derive(Clone, Copy)]
pub struct How {
    pub form: u16,
    pub shape: u16,
    pub rows: u16,
    pub columns: u16,
    pub extent: u16,
    pub head: HeadNumbers,
}

/// What these numbers ask for.
#[derive(Clone, Copy)]
pub(crate) struct Wanted {
    pub(crate) form: Form,
    pub(crate) size: SizeChoice,
    pub(crate) head: Option<Head>,
}

/// Gives what the numbers ask for, or why that can't be.
pub(crate) fn check_how(how: How) -> Result<Wanted, Fault>
    ensures wanted { IfOk result (λ wanted.
        AskFor how wanted.form wanted.size wanted.head) }
    ensures fault { IfErr result (λ why. IsHowFault how why) }
{
    let form = match form_of(how) {
        Ok(form) => form,
        Err(why) => return Err(why),
    };
    let Some(size) = choice_of(how) else {
        return Err(Fault::no_such_choice(how.shape));
    };
    let Some(head) = head_of(how.head) else {
        return Err(Fault::no_such_head());
    };
    Ok(Wanted { form, size, head })
}
