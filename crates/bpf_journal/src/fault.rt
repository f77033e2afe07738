//! Why a move is not made.
use bpf_machine::EditFault;
use thiserror::Error;

/// Why a move can't be made. It changes nothing then.
#[derive(Clone, Copy, Debug, Error)]
pub enum MoveFault {
    /// A step was asked of a machine that has ended.
    #[error("the machine has ended")]
    Ended,
    /// The edit is refused.
    #[error(transparent)]
    Edit(EditFault),
}

/// Why a move was not made with a journal.
#[derive(Clone, Copy, Debug, Error)]
pub enum TimelineFault {
    /// The move can't be made.
    #[error(transparent)]
    Move(MoveFault),
    /// The journal has no memory for its entry. The move was not made, or was taken back.
    #[error("out of memory")]
    OutOfMemory,
}
