//! What a machine is opened with besides its program and its context: values of registers, and how a
//! text asks for them.
#![tactic(auto)]

mod fault;
pub mod laws;
mod machine;
mod opening;
mod registers;

pub use fault::OpeningFault;
pub use machine::{open, reopen};
pub use opening::{BARE, Opening, REGISTERS};
pub use registers::asked_opening;
