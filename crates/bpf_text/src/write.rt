//! How a listing is written.
mod disassembler;
mod insn;
mod operand;

pub use disassembler::disassemble;
pub use insn::{put_insn, write_insn};
