//! What all devices share: a failure, and how failures are counted.

ghost use Rattle.std.specs.Prelude.{◌≡◌, IfOk, OnErr, IsErr, Ok};
ghost use Rattle.dm_text.specs.Devices.{Counts, HasRisen};

use std::io;

/// A device failed.
#[derive(Clone, Copy, Debug, PartialEq, Eq)]
pub struct Failed;

/// Gives what a call of a device came to, and counts each error as a failure.
///
/// The count stays at `u64::MAX` once it has reached it.
pub(crate) fn count_failure<T>(failures: &mut u64, outcome: io::Result<T>) -> Result<T, Failed>
    ensures ok { IfOk outcome (λ x. result ≡ Ok x) }
    ensures err { OnErr outcome (IsErr result) }
    ensures count { Counts failures.old failures.new result }
{
    match outcome {
        Ok(value) => Ok(value),
        Err(_) => Err(failure(failures)),
    }
}

/// Counts one more failure.
pub(crate) fn failure(failures: &mut u64) -> Failed
    ensures { HasRisen failures.old failures.new }
{
    *failures = failures.saturating_add(1);
    Failed
}
