//! Scripts: their lines, read into a buffer of fixed size, the commands and refusals that lines come
//! to, and the texts of replies, with names and texts of others as they are shown. What replies print
//! is held by the tests of the built program.
#![tactic(auto)]

mod breaks;
mod bytes;
mod command;
mod count;
mod frames;
mod history;
mod instructions;
mod line;
mod moves;
mod number;
mod parser;
mod place;
mod refusal;
mod refusal_text;
mod registers;
mod shown;
mod slot_text;
mod tokens;
mod trace;
mod why;

pub use breaks::put_breaks;
pub use bytes::put_bytes;
pub use command::{Command, Goal, Stop, Target, View};
pub use count::{Count, GREATEST_SPAN, Span};
pub use frames::put_frames;
pub use history::{put_change, put_history, put_unchanged};
pub use instructions::{put_at, put_instructions};
pub use line::{LineBuffer, NextLine, next_line};
pub use moves::put_move;
pub use parser::{LONGEST_LINE, parse_bytes, parse_command};
pub use place::{put_place, write_place};
pub use refusal::Refusal;
pub use refusal_text::put_refusal;
pub use registers::{number_in, put_state};
pub use shown::{put_shown, put_shown_lines, shown_name, steers};
pub use slot_text::{SlotTexts, text_of_slot};
pub use trace::put_trace;
pub use why::Why;
