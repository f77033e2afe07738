//! What the words of a linked program do to a machine before the entry, and what linking a joined
//! object comes to.
#![tactic(auto)]

pub mod join_laws;
pub mod laws;
