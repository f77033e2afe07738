//! A pass over a history that looks for branches, as far as it has come.

use crate::branch_aim::Aim;
use crate::keep::Keep;
use crate::{Standing, Sure};
use counted_io::WriteFault;

/// What is looked for, and what was told so far.
#[derive(Drop)]
pub struct Hunt {
    /// The slot that was come to.
    pub aim: Aim,
    /// From where its function comes to it surely.
    pub sure: Sure,
    /// How many more lines the answer about values has.
    pub values: u64,
    /// How many more lines there may be.
    pub lines: u64,
    /// Whether what was told could be written.
    pub told: Result<(), WriteFault>,
    /// What holds the values that are looked for.
    pub keep: Keep,
}

/// A move that was taken back.
#[derive(Clone, Copy)]
pub struct Undone {
    /// Its number: that of the newest is 1.
    pub number: u64,
    /// Whether it was a step.
    pub is_step: bool,
    /// Where it led to.
    pub after: Standing,
}

/// What became of one move of the pass.
#[derive(Drop)]
pub enum Turn {
    /// The pass goes on.
    On(Hunt),
    /// The answer is cut.
    Cut(Result<(), WriteFault>),
}
