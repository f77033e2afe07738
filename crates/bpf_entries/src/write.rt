//! Entries written into bytes: a function for each kind, into the beginning of a slice. What stands
//! behind the entry stays.
mod entries;
mod fixed;
mod runs;
mod sized;
mod tags;

pub use fixed::{
    put_edit_pc, put_edit_register, put_end, put_jump, put_register, put_return, put_trace,
};
pub use runs::{put_call, put_cell, put_edit_bytes, put_fetch, put_store};
pub use sized::{put_fetch_number, put_store_number};
