//! Where a value came from: the places that moves read and write, and the moves that a value
//! depends on.
#![tactic(auto)]

mod answer;
mod compared;
mod fault;
pub mod laws;
mod left;
mod line;
mod look;
mod marks;
mod origin;
mod past;
mod place;
mod question;
mod reads;
mod value;
mod wanted;
mod what;
mod writes;

pub use answer::put_answer;
pub use compared::put_operands;
pub use fault::WhatFault;
pub use line::{put_move, put_part_name, put_slot, put_value};
pub use look::{Looked, go_on, look_back};
pub use origin::put_origin;
pub use past::Past;
pub use place::{Part, Place};
pub use question::{Extent, Question, Told};
pub use reads::{
    MOST_PARTS, Parts, address_of, asked, followed, load_len, register_part, width_len,
};
pub use value::{depth_for, register_at, word_at};
pub use wanted::{MOST_PLACES, Wanted};
pub use what::{What, number_in, parts_asked};
pub use writes::written;
