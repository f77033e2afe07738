//! Faults of the input and output of a session.

use thiserror::Error;

/// Why a script or a program wasn't run to its end.
#[derive(Clone, Copy, Debug, Error)]
pub enum RunFault {
    /// The input could not be read.
    #[error("cannot read input")]
    Read,
    /// A write or a flush of the output failed.
    #[error("cannot write output")]
    Write,
}
