//! A program, from FILE and what says which of its programs runs.
#![tactic(auto)]

mod fault;
mod kind;
pub mod laws;
mod loading;
mod notes;
mod program;
mod target;

pub use fault::{ObjectFault, TargetFault, in_object};
pub use kind::{is_object, kind_of};
pub use loading::{LinkedObject, Sources, gathered, lacks_functions, link_object};
pub use notes::{Notes, notes_of};
pub use program::{Loaded, load, load_again, named_maps};
pub use target::{SourceKind, Target, told_packet};
