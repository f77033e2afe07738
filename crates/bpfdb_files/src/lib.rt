//! What the program reads of files, over any reader, and calls that are made again where the system
//! interrupts them.
#![tactic(auto)]

mod kinds;
mod opener;
mod reading;
mod retrying;

pub use kinds::{FileKind, SOURCE_BYTES, read_kind};
pub use opener::Opener;
pub use reading::{FirstFault, read_first};
pub use retrying::Retrying;
