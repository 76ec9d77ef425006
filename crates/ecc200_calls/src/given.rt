//! What is given to a call: modules, and which of them are doubtful.

ghost use Rattle.std.specs.Prelude.{◌≡◌, ◌≢◌, [], false, IfErr, IfOk, IsTrue};
ghost use Rattle.ecc200_calls.specs.Modules.{IsGivenFault};
ghost use Rattle.ecc200_calls.specs.inner.Given.{AreZero, IsKnown};

use crate::fault::Fault;
use dm_layout::symbols::SymbolSize;

/// What is known of modules that are given: the size of their symbol, and whether any of them is doubtful.
#[derive(Clone, Copy)]
pub(crate) struct Given {
    pub(crate) size: SymbolSize,
    pub(crate) doubt: bool,
}

/// Tells what is known of these modules, of which these are doubtful, or why they make no symbol. The counts are looked
/// at first, and whether any module is doubtful is asked here alone: none is where there are no numbers for doubtful
/// modules, or all are 0.
pub(crate) fn check_given(
    modules: &[u8],
    doubtful: &[u8],
    rows: u16,
    columns: u16,
) -> Result<Given, Fault>
    ensures known { IfOk result (λ given. IsKnown rows columns modules.now doubtful.now given.size
        given.doubt) }
    ensures fault { IfErr result (λ why. IsGivenFault rows columns modules.now doubtful.now why) }
{
    let count = usize::from(rows) * usize::from(columns);
    if modules.len() != count {
        return Err(Fault::shape());
    }
    let Some(size) = SymbolSize::of(rows, columns) else {
        return Err(Fault::no_such_size(rows, columns));
    };
    if !doubtful.is_empty() && doubtful.len() != count {
        return Err(Fault::wrong_doubt());
    }
    Ok(Given {
        size,
        doubt: !are_zero(doubtful),
    })
}

/// Whether these numbers are all 0. All are looked at, without a jump, so that the compiler takes many at once.
fn are_zero(numbers: &[u8]) -> bool
    ensures none { IsTrue result → AreZero numbers.now }
    ensures some { result ≡ false → numbers.now ≢ [] }
{
    let mut other = false;
    for number in numbers {
        other = other | (*number != 0);
    }
    !other
}
