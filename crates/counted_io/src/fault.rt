//! What reading and writing can answer.

use thiserror::Error;

/// A reader answered an error.
#[derive(Clone, Copy, Debug, Error)]
#[error("cannot read")]
pub struct ReadFault;

/// A writer took no more: it answered an error, or no byte of a piece that isn't empty.
#[derive(Clone, Copy, Debug, Error)]
#[error("cannot write")]
pub struct WriteFault;
