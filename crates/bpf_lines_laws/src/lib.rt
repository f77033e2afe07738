//! What the table of lines tells of the words that run: the slots of the sections that they come from.
#![tactic(auto)]

pub mod laws;
