//! Batches: cases from a reader, run one after another, and a line of what each came to.
#![tactic(auto)]

mod answer;
mod batch;
mod begin;
mod fault;

pub use batch::{Batch, run_batch};
pub use fault::{BatchFault, Refusal};
