//! Entries read from bytes.
mod lengths;
pub(crate) mod runs;
mod tags;
mod values;

pub use lengths::{first_len, last_len};
pub use runs::{byte_before, depth_before, replaced_in};
pub use tags::{is_marked, is_of_step, kind_of};
pub use values::{saved_in, slot_in, status_by};
