//! Files of tests: what programs come to, held against what is expected.
#![tactic(auto)]

mod asks;
mod bench;
mod body;
mod cells;
mod contexts;
mod cover;
mod ending;
mod expected;
mod fault;
mod image;
mod kind;
pub mod laws;
mod list;
mod outcome;
mod reading;
mod refusal;
mod regs;
mod report;
mod section;
mod setting;
mod shown;
mod stock;
mod suite;
mod table;
mod test;
mod values;
mod verdict;
mod words;

pub use cover::CoverForm;
pub use fault::{FileFault, SectionFault};
pub use list::{TestList, choose};
pub use refusal::{Refusal, put_numbered, put_refusal, slot_of};
pub use report::{SuiteFault, run_tests, write_plan};
pub use shown::WordsFault;
pub use suite::Suite;
pub use test::Test;
