//! The instruction set of BPF (RFC 9669): words, their decoder and encoder, the checker of
//! programs.
#![tactic(auto)]

mod checker;
mod decoder;
mod demands;
mod encoder;
mod fault;
mod fields;
mod helpers;
mod instruction;
pub mod laws;
mod maps;
mod mnemonic;
mod opcode;
mod program;
mod register;
mod row;
mod rules;
mod words;

pub use decoder::decode;
pub use demands::Demands;
pub use encoder::encode;
pub use fault::{LoadFault, MapFault, PieceFault, WordFault};
pub use helpers::Helper;
pub use instruction::{
    Address, AtomicOp, BinaryOp, ByteOrder, Condition, Extension, Insn, LoadSize, SignedSize, Size,
    Source, SourceKind, SwapWidth, WideValue, Width,
};
pub use maps::{LONGEST_VALUE, MOST_ENTRIES, MOST_MAP_BYTES, MOST_MAPS, MapShape, MapTable};
pub use mnemonic::{Mnemonic, WideKind};
pub use program::{MOST_SLOTS, Program, check};
pub use register::Reg;
pub use words::Words;
