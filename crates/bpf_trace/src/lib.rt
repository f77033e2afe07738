//! Runs told step by step: a line a step or a conditional jump, or how often each instruction ran;
//! and strict runs, which end at a read of the stack that nothing wrote.
#![tactic(auto)]

mod branch;
mod call_text;
mod calls;
mod ending;
mod form;
mod head;
pub mod laws;
mod line;
mod line_end;
mod marks;
mod name_list;
mod own_code;
mod parts;
mod profile;
mod prototypes;
mod reads;
mod step;
mod strict_run;
mod strict_trace;
mod taken;
mod trace;
mod unwritten;
mod words;

pub use bpf_cover::Texts;
pub use calls::{Called, Callee, Pending, write_calls};
pub use ending::{put_end, put_limit, put_standing, put_told_end};
pub use form::Form;
pub use own_code::OwnCode;
pub use profile::{Profile, put_profile};
pub use strict_run::{Unwritten, find_unwritten};
pub use strict_trace::write_trace_until;
pub use taken::{Taken, put_taken, step_on};
pub use trace::{Shown, TraceFault, write_trace};
pub use unwritten::put_unwritten;
