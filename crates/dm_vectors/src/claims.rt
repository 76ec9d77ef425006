//! What a test claims.

use std::process::Abort;

/// Ends the test unless this is so. An `assert!` in the test's own body takes the prover several times as long as this
/// call.
pub(crate) fn holds(rt: &impl Abort, is_so: bool) {
    assert!(rt; is_so);
}
