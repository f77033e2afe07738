//! How a listing is read.
mod assembler;
mod characters;
mod first_round;
mod labels;
mod line;
mod number;
mod rows;
mod second_round;
mod statement;
mod term;
mod text_key;

pub use assembler::assemble;
pub use rows::line_table;
