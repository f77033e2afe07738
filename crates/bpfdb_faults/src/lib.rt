//! Why a job isn't done: its faults, and the line and the exit status of each.
#![tactic(auto)]

mod fault;
mod kind;
mod line;
mod refusal;
mod report;

pub use fault::JobFault;
pub use kind::KindFault;
pub use line::put_object;
pub use refusal::JobRefusal;
pub use report::{ended, flush_after, give_up, tell, tell_usage, told_as, write_out};
