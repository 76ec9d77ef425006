//! How the program ends: its status, and its line on standard error.

ghost use Rattle.std.specs.Prelude.{◌≡◌};
ghost use Rattle.dm_command.specs.Endings.{IsEndingOf, IsEndingOfCall};

use crate::fault::CallFault;
use dm_text::{READ_FAILED, RunFault, TOO_MUCH_INPUT, Tally, WRITE_FAILED};

/// The line that shows how the program is called.
pub(crate) const USAGE: &str =
    "dm_tool: usage: dm_tool read|check [--border N] | normal [--border N] [--shorter] | write [--shorter] | table";

/// The line where memory was refused.
pub(crate) const NO_MEMORY: &str = "dm_tool: no memory";

/// Gives the exit status after a run, and the line for standard error without its LF, empty where there is none.
///
/// The status is 0 where nothing was refused, 1 where something was, and 3 where the run failed.
pub fn ending(outcome: &Result<Tally, RunFault>) -> (u8, &'static str)
    ensures { IsEndingOf outcome.now result.0 result.1.now }
{
    match outcome {
        Ok(tally) if tally.refused == 0 => (0, ""),
        Ok(_) => (1, ""),
        Err(RunFault::Read) => (3, READ_FAILED),
        Err(RunFault::Write) => (3, WRITE_FAILED),
        Err(RunFault::TooMuchInput) => (3, TOO_MUCH_INPUT),
    }
}

/// Gives the exit status where no task was run, and the line for standard error.
///
/// The status is 2 for a command line that the program doesn't know, and 3 where there was no memory.
pub fn call_ending(fault: CallFault) -> (u8, &'static str)
    ensures { IsEndingOfCall fault result.0 result.1.now }
{
    match fault {
        CallFault::Usage => (2, USAGE),
        CallFault::Memory => (3, NO_MEMORY),
    }
}
