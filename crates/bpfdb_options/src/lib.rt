//! What bpfdb is asked for: a subcommand with its options, and the options of each run.
#![tactic(auto)]

mod ask;
mod options;
mod registers;
mod subcommand;
mod test_part;

pub use ask::{
    Ask, ConversationAsk, DEFAULT_LINES, DiffAsk, OriginAsk, OtherSide, Scope, TestAsk, TraceAsk,
    WhynotAsk,
};
pub use options::{NO_OPTIONS, Options};
pub use registers::Registers;
pub use subcommand::Subcommand;
pub use test_part::TestPart;
