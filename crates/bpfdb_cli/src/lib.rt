//! The command line: from its words to a plan, or to help or a fault in the words of `clap`.
//! Its tests are those of the built program: `tests/program/usage.sh` and `tests/program/jobs.sh`.
#![tactic(auto)]

mod asked;
mod command_line;
mod help;
mod misfit;
mod options;
mod planner;
mod plans;
mod subcommands;
mod values;

pub use planner::plan;
pub use plans::{EntryTakes, Form, Plan, PlanFault, TargetWords};
