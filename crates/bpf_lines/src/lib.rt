//! What an object tells of a linked program: the functions and lines of its slots, the slots of such
//! places, and the names of what lies in its maps, from its symbols and BTF.
#![tactic(auto)]

mod debug_info;
mod enumerators;
mod functions;
mod globals;
mod line_info;
mod listing;
mod lookups;
mod marks;
mod named_maps;
mod named_text;
mod named_value;
mod names;
mod objects;
mod own;
mod part_lines;
mod place;
mod place_names;
mod place_slots;
mod place_texts;
mod rows;
mod slots;
mod spot;
mod table_row;
mod values;

pub use debug_info::{DebugInfo, put_no_place};
pub use enumerators::Enumerator;
pub use line_info::LineEntry;
pub use listing::listing_slots;
pub use lookups::{Functions, program_functions, program_places, program_slots};
pub use named_maps::NamedMap;
pub use named_text::put_named;
pub use objects::{LinesFault, ObjectLines, program_lines, write_table};
pub use own::own_slots;
pub use part_lines::PartLines;
pub use place::is_place;
pub use place_names::{Names, map_names};
pub use rows::Said;
pub use spot::{Part, Spot};
