//! What ran of a program, over its runs: which instructions, and which ways of conditional jumps.
#![tactic(auto)]

mod coverage;
mod places;
mod sources;
mod texts;
mod tracefile;

pub use coverage::Coverage;
pub use places::is_table;
pub use texts::Texts;
