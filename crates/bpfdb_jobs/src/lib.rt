//! Jobs: work on the bytes of files, done over a reader, a writer and standard error.
#![tactic(auto)]

mod against;
mod batch;
mod calls;
mod check;
mod conversation;
mod cover;
mod debug;
mod diff;
mod differences;
mod dispatch;
mod ending;
mod gdb;
mod hint;
mod job;
mod known;
mod listing;
mod load;
mod look;
mod maps;
mod naming;
mod object;
mod object_lines;
mod opening;
mod origin;
mod other_map;
mod result;
mod row;
mod run;
mod runs;
mod script;
mod show;
mod source;
mod streams;
mod strict;
mod suite;
mod trace;
mod whynot;

pub use debug::debug_job;
pub use differences::put_differences;
pub use dispatch::tool;
pub use hint::add_hint;
pub use job::Job;
pub use streams::Streams;
