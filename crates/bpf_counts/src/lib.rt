//! The object in which maps have as many entries as they are told.
#![tactic(auto)]

mod btf;
mod file;
mod told;
mod walk;
mod words;

pub use told::{CountFault, counted};
