//! Entries: what a move of the machine replaced, as a value, by its parts, and as the bytes that a
//! journal keeps.
#![tactic(auto)]

mod byte_string;
mod entry;
mod frames;
mod laws;
mod read;
mod status;
pub mod weights;
mod write;

pub use byte_string::ByteString;
pub use entry::Entry;
pub use frames::{FRAME_BASE, FRAME_LEN, FRAME_STRIDE, FrameBytes, frame_base};
pub use laws::{
    a_ring_is_cut_from_the_back, a_ring_is_of_one_list, a_text_is_of_one_entry, worked_texts,
};
pub use read::{
    byte_before, depth_before, first_len, is_marked, is_of_step, kind_of, last_len, replaced_in,
    saved_in, slot_in, status_by,
};
pub use status::{Fault, Status};
pub use write::{
    put_call, put_cell, put_edit_bytes, put_edit_pc, put_edit_register, put_end, put_fetch,
    put_fetch_number, put_jump, put_register, put_return, put_store, put_store_number, put_trace,
};
