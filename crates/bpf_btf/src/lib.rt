//! The shapes of maps, the relocations of fields, and the contexts of programs, from the BTF of an
//! object.
#![tactic(auto)]

mod contexts;
mod core_relocations;
mod fault;
mod fields;
mod layout;
mod map_kinds;
mod maps;
mod members;
mod section;
mod sizes;
mod types;

pub use core_relocations::{CoreRelocations, block_end, has_entries};
pub use fault::BtfFault;
pub use fields::{byte_at, is_called, u16_at, u32_at};
pub use layout::{ArrayEntry, MemberEntry, TypeEntry};
pub use maps::MapDescription;
pub use members::latest;
pub use section::Btf;
pub use sizes::is_modifier;
