//! Two runs, compared: in step, the first step that wrote otherwise in one than in the other, where
//! they part, and how they end; by what each leaves for one who looks from outside; or one of them
//! by the trace of another machine.
#![tactic(auto)]

mod against;
mod against_ending;
mod along;
mod diff;
mod end;
mod follow;
pub mod laws;
mod lines;
mod marked;
mod outputs;
mod parting;
mod seen;
mod start;
mod texts;
mod told_writers;
mod values;
mod writer;
mod wrote;

pub use against::{Against, put_against};
pub use diff::{Compared, put_diff};
pub use marked::put_marked;
pub use outputs::put_writes;
pub use start::{Runs, Start};
pub use texts::BothTexts;
pub use values::Values;
