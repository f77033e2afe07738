//! The machine that runs BPF programs (RFC 9669): opened, stepped, edited, and put back by entries.
#![tactic(auto)]

mod cpu;
mod edit;
mod ended;
pub mod laws;
mod moves;

pub use bpf_entries::{ByteString, Entry, Fault, FrameBytes, Status};
pub use bpf_steps::platform::CONTEXT_LIMIT;
pub use bpf_steps::run::Guard;
pub use bpf_steps::{Change, Frame, Memory, OpenFault};
pub use cpu::{Cpu, Kept};
pub use edit::{Edit, EditFault};
pub use ended::Ended;
pub use moves::Move;
