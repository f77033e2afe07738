//! Texts that come in beside a program: the sections of test files and the files that they name,
//! cases of `batch`, programs in turn, counts of entries, and traces of other machines.
#![tactic(auto)]

mod capture;
mod case;
mod case_fault;
mod case_line;
mod count;
mod digits;
mod head;
mod options;
mod path;
mod piece;
mod put;
mod read_ahead;
mod told;
mod trace_fault;
mod trace_form;
mod trace_lines;
mod turn;
mod word;
mod words;

pub use capture::{packet_at, packet_starts};
pub use case::{Case, case_of};
pub use case_fault::CaseFault;
pub use case_line::{LONGEST_LINE, LineBuffer, NextLine, ReadFault, next_line};
pub use count::{are_counts, count_in, map_in};
pub use head::{Head, Text, head_of};
pub use options::{are_options, is_empty, once_of, option_lines, values_of};
pub use path::{folder_of, is_absolute, is_below};
pub use piece::{Piece, front, pieces};
pub use put::{feeds, memory_text, with_lines, words_text};
pub use read_ahead::ReadAhead;
pub use told::Told;
pub use trace_fault::{BadLine, LineFault, form_of_trace};
pub use trace_form::Form;
pub use turn::{has_place, name_in, offset_in};
pub use word::Word;
pub use words::{Words, is_told, number_of};
