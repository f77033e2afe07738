//! Listings of BPF programs: the assembler and the disassembler.
#![tactic(auto)]

mod fault;
pub mod laws;
mod names;
mod read;
mod write;

pub use counted_io::{Counted, WriteFault};
pub use fault::{AsmFault, LineFault};
pub use read::{assemble, line_table};
pub use write::{disassemble, put_insn, write_insn};
