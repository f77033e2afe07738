//! Files of tests whose sections name files: each such section is replaced by one of what its file
//! holds.
#![tactic(auto)]

mod asked;
mod fault;
mod file;
mod joining;
mod made;
mod maps;
mod place;
mod put;
mod shelf;

pub use fault::{FilesFault, KeptFault, NamedFault};
pub use file::replaced;
pub use place::Place;
