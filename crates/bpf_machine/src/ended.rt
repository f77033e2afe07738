//! What is answered where no step can be taken.

use thiserror::Error;

/// A step was asked of a machine that has ended.
#[derive(Clone, Copy, Debug, Error)]
#[error("the machine has ended")]
pub struct Ended;
