//! Programs that the kernel gives a packet by a struct of its own, on the packet itself.
#![tactic(auto)]

mod entry;
mod fault;
mod fields;
mod flow;
mod held;
mod packet;
mod program;
mod rewriting;
mod slot;
mod solver;
mod tables;
mod uses;
mod verdict;

pub use fault::{PacketFault, SlotFault, UseFault};
pub use packet::Packet;
pub use program::on_packet;
pub use slot::extended;
pub use verdict::verdict_name;
