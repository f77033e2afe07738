//! Words of a program from a relocatable ELF object.
#![tactic(auto)]

mod contexts;
mod data_sections;
mod entry;
mod fault;
mod field_relocations;
mod fields;
mod helpers;
mod home;
mod image;
pub mod laws;
mod layout;
mod linker;
mod map_names;
mod map_types;
mod missing;
mod names;
mod object;
mod packets;
mod parts;
mod patch;
mod placed;
mod plan;
mod pruned;
mod reach;
mod sections;
mod setup;
mod shapes;
mod sources;
mod stub_lists;
mod stubs;
mod tables;
mod undefined;
mod words;
mod written;

pub use contexts::packet_of;
pub use data_sections::{data_of, is_among};
pub use entry::{is_function, is_program};
pub use fault::{LinkFault, RelocationFault};
pub use field_relocations::fields_as_compiled;
pub use fields::{u16_at, u32_at};
pub use helpers::{has_prefix, helper_name};
pub use home::home_of;
pub use image::filled;
pub use layout::{
    MapDefinition, RelocationEntry, SectionHeader, SymbolEntry, map_definition, symbol_entry,
};
pub use linker::{LinkOptions, Linked, link, link_with, planned, reached_code};
pub use map_types::{
    are_in_maps, found_named, is_something, name_from, name_place, named_bytes, section_bytes,
    symbol_of, told_of_types, types_bytes, types_in,
};
pub use missing::{ALL_HELPERS, is_called};
pub use names::{fault_names, short_at};
pub use object::Object;
pub use parts::{Part, Parts, Side};
pub use patch::is_map;
pub use plan::{Plan, is_closed, part_place, symbol_place};
pub use sections::{Found, is_code, is_data, is_named, name_at, section_place};
pub use sources::Source;
pub use stub_lists::{MOST_STUBS, stubs_in};
pub use stubs::{Stub, calls_helper};
pub use tables::{Bytes, Relocations, Symbols};
pub use words::unlinked;
pub use written::{with, with_u64, word_bytes};
