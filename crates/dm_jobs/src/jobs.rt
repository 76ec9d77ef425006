//! The jobs, each in rounds.

pub(crate) mod camera;
pub(crate) mod labels;
pub(crate) mod limit;
pub(crate) mod scans;
pub(crate) mod stores;
pub(crate) mod stray;
pub(crate) mod torn;
