//! Why a command line names no task.

use crate::endings::{NO_MEMORY, USAGE};
use thiserror::Error;

/// Why a command line names no task.
#[derive(Clone, Copy, Debug, PartialEq, Eq, Error)]
pub enum CallFault {
    /// It isn't one that the program knows.
    #[error("{line}", line = USAGE)]
    Usage,
    /// There was no memory to parse it.
    #[error("{line}", line = NO_MEMORY)]
    Memory,
}
