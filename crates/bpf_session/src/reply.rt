//! Replies: the answers to commands.

use bpfdb_script::{View, Why};

/// The answer to a command. Its text is written from the session's state.
#[derive(Clone, Copy)]
pub enum Reply {
    /// So many steps were taken.
    Forward { steps: u64, why: Why },
    /// So many moves were taken back.
    Back { moves: u64, why: Why },
    /// So many moves were made again.
    Redone { moves: u64, why: Why },
    /// It is done.
    Ok,
    /// What was asked for is shown: its bytes are present, and an instruction starts at its slot.
    Shown(View),
    /// No text.
    Nothing,
}
