//! A ring of bytes of a fixed size, which holds the text of a journal: the oldest entries make room
//! for new ones.
#![tactic(auto)]

mod backward;
mod block;
mod counts;
mod edge;
mod fault;
mod keeper;
mod pieces;
mod quiet;
mod ring;
mod run;
mod size;
mod stretches;
mod touched;

pub use backward::Stays;
pub use fault::JournalFault;
pub use keeper::{Head, RingKeeper};
pub use quiet::PassedOver;
pub use ring::Ring;
pub use run::{StopTest, change_replaces_bytes};
pub use size::is_size;
pub use stretches::Stretch;
pub use touched::Touched;
