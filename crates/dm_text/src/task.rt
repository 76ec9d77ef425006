//! What is to be done with a text, and what came of it.

use dm_symbol::Profile;
use thiserror::Error;

// The program prints these lines as they stand, so they begin with its name.

/// The line of a run of which a read failed.
pub const READ_FAILED: &str = "dm_tool: read failed";

/// The line of a run of which a write failed.
pub const WRITE_FAILED: &str = "dm_tool: write failed";

/// The line of a run with more input than is read.
pub const TOO_MUCH_INPUT: &str = "dm_tool: too much input";

/// What is to be done with the input.
///
/// The first three have the border limit; without one it is the usual limit of each grid's own side.
#[derive(Clone, Copy, Debug, PartialEq, Eq)]
pub enum Task {
    /// The messages of grids.
    Read(Option<u16>),
    /// How damaged grids are.
    Check(Option<u16>),
    /// The normal grids under a profile of what grids say.
    Normal(Option<u16>, Profile),
    /// The normal grids under a profile of messages.
    Write(Profile),
    /// The sizes.
    Table,
}

/// A task that asks about records: one of the first three of [`Task`].
#[derive(Clone, Copy)]
pub(crate) enum RecordTask {
    Read(Option<u16>),
    Check(Option<u16>),
    Normal(Option<u16>, Profile),
}

/// How many records or lines there were, by their answers: `answered` counts those whose answer is no refusal, and
/// `refused` the others.
#[derive(Clone, Copy, Debug, PartialEq, Eq)]
pub struct Tally {
    /// How many answers are no refusals.
    pub answered: u64,
    /// How many answers are refusals.
    pub refused: u64,
}

/// Why a run failed. A sink may also fail after the input has ended.
#[derive(Clone, Copy, Debug, PartialEq, Eq, Error)]
pub enum RunFault {
    /// A read of the source failed.
    #[error("{line}", line = READ_FAILED)]
    Read,
    /// A write or flush of the sink failed.
    #[error("{line}", line = WRITE_FAILED)]
    Write,
    /// The source has more bytes than were to be read.
    #[error("{line}", line = TOO_MUCH_INPUT)]
    TooMuchInput,
}
