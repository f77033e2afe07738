//! Counted readers and writers, blanks, and numbers as they are read and written.
//! What no contract says of them is asked of `memory_calls`.
#![tactic(auto)]

mod blank;
mod counted;
mod cuts;
mod fault;
mod hexadecimal;
mod numeral;
mod piece;
mod reading;
mod writing;

pub use blank::{find_blank, is_blank, trim_start};
pub use counted::Counted;
pub use cuts::{cut, find, position, sides, trim, trim_end};
pub use fault::{ReadFault, WriteFault};
pub use hexadecimal::{hex_digit, put_hexadecimal};
pub use numeral::{Numeral, digit_value, natural, natural_in};
pub use piece::{Piece, put_all};
pub use reading::read_byte;
pub use writing::{put, put_decimal, put_signed, write_text};
