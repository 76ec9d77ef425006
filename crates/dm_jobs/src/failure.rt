//! Why a job isn't done.

use dm_text::RunFault;
use std::alloc::{AllocError, AllocFailed};

/// Why a job isn't done.
#[derive(Clone, Copy)]
pub(crate) enum Failure {
    /// There is no memory.
    Memory,
    /// A run failed.
    Run,
    /// The command line names no job.
    Usage,
}

impl From<AllocError> for Failure {
    fn from(_: AllocError) -> Failure {
        Failure::Memory
    }
}

impl From<AllocFailed<u8>> for Failure {
    fn from(_: AllocFailed<u8>) -> Failure {
        Failure::Memory
    }
}

impl From<RunFault> for Failure {
    fn from(_: RunFault) -> Failure {
        Failure::Run
    }
}

impl Failure {
    /// Says why.
    pub(crate) fn words(self) -> &'static str {
        match self {
            Failure::Memory => "dm_jobs: no memory",
            Failure::Run => "dm_jobs: a run failed",
            Failure::Usage =>
                "dm_jobs: usage: dm_jobs scans|stores|labels|camera|torn|stray|each SEED ROUNDS",
        }
    }
}
