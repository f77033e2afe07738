//! What a step does (RFC 9669, sections 4 and 5): the definitions of state and step, results of
//! operations, memory, and runs of common steps over parts of a machine that are lent to them.
#![tactic(auto)]

pub mod alu;
mod change;
mod fault;
mod flat;
mod frame;
mod map_layout;
mod memory;
pub mod platform;
pub mod run;
mod words;

pub use change::Change;
pub use fault::OpenFault;
pub use flat::{FlatCode, flats_of};
pub use frame::Frame;
pub use memory::Memory;
pub use words::{are_registers, are_words};
