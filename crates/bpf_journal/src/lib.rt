//! The journal: the entries of moves, kept so that each move can be taken back.
#![tactic(auto)]

mod again;
mod course;
mod entries;
mod fault;
mod fields;
mod item;
mod keeper;
pub mod laws;
mod list_keeper;
mod replaced;
mod reversible;
mod ring_keeper;
mod run;
mod taken;
mod timeline;

pub use bpf_machine::Move;
pub use bpf_ring::{JournalFault, RingKeeper, Stays, StopTest, Touched};
pub use course::Course;
pub use fault::{MoveFault, TimelineFault};
pub use keeper::Keeper;
pub use list_keeper::ListKeeper;
pub use reversible::Reversible;
pub use run::Run;
pub use taken::Taken;
pub use timeline::{ByteChange, Timeline};
