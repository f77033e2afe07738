//! Objects as one: a program, and the functions that answer what it calls.
#![tactic(auto)]

mod chain;
mod codes;
mod fault;
mod functions;
mod joined;
mod names;
mod own_maps;
mod places;
mod records;
mod relocations;
mod spots;
mod symbols;
mod table;

pub use chain::{ChainFault, join_all};
pub use fault::JoinFault;
pub use joined::{Joined, join, with_u16};
pub use own_maps::own_records;
pub use relocations::relocation_bytes;
pub use symbols::raw_at;
pub use table::{lies_at, with_header};
