//! The packet of a capture that is a context, and why there is none.
#![tactic(auto)]

mod choice;
mod fault;
mod header;
mod link;
mod note;
mod packet;

pub use choice::{Chosen, choose};
pub use fault::{CaptureFault, PacketFault, put_fault};
pub use note::{Note, put_note};
pub use packet::{Captured, packet_of};
