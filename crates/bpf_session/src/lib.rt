//! Sessions: commands over a machine and the keeper of its moves, runs of scripts, and replies.
#![tactic(auto)]

mod breakpoints;
mod fault;
mod halting;
mod kept;
pub mod laws;
mod plain;
mod reply;
mod script;
mod session;
mod watches;

pub use bpfdb_script::{
    Command, Count, Goal, Refusal, Span, Stop, Target, View, Why, parse_command, write_place,
};
pub use counted_io::{Counted, WriteFault};
pub use fault::RunFault;
pub use kept::run_kept;
pub use plain::{Ending, run_plain};
pub use reply::Reply;
pub use script::{put_answer, run};
pub use session::Session;
pub use watches::{Run, Sight};
