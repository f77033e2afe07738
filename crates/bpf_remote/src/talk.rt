//! How a talk with gdb stands.

use crate::body::Body;
use crate::manners::Manners;
use bpf_agent::Conditions;

/// How a talk with gdb stands between two items of its stream.
#[derive(Drop)]
pub struct Talk<'a> {
    /// How gdb is talked to, and how far the program has gone.
    pub manners: Manners<'a>,
    /// The conditions of breakpoints that gdb has sent.
    pub conditions: Conditions,
    /// The body of the last answer.
    pub answer: Body,
}
