//! How gdb is talked to, and how far the program has gone.
use crate::target::Target;

/// How gdb is talked to, and how far the program has gone.
#[derive(Clone, Copy)]
pub struct Manners<'a> {
    /// Packets are acknowledged, which they are at first.
    pub acknowledges: bool,
    /// gdb understands `swbreak` in an answer.
    pub swbreak: bool,
    /// What gdb is told of.
    pub target: Target<'a>,
    /// How many moves lie before the state, those that the journal dropped too.
    pub moves: u64,
}
