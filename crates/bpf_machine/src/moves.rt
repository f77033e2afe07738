//! Moves: what changes a machine.

use crate::edit::Edit;

/// A step of the program, or an edit by hand.
#[derive(Drop)]
pub enum Move {
    /// The instruction at pc.
    Step,
    /// An edit.
    Edit(Edit),
}
