//! Why a program did not come to an instruction: where it could still have come to, and the move
//! after which it couldn't; and why it came to where it stands: the branches that decided it, by
//! dynamic control dependence over the history that is kept, and those that kept a value as it was.
#![tactic(auto)]

mod aim;
mod branch_aim;
pub mod branch_laws;
mod branch_text;
mod branches;
mod fault;
mod flow;
mod goals;
mod hunt;
mod keep;
mod kept;
pub mod laws;
mod level;
mod line;
mod look;
mod made;
mod made_line;
mod maker;
mod may_write;
mod over;
mod reach;
mod search;
mod sources;
mod standing;
mod sure;
mod turn;
mod value;
mod walk;
mod whynot;

pub use aim::Aim;
pub use branch_text::{Found, find_branches};
pub use branches::put_branches;
pub use fault::{AimFault, GoalFault};
pub use flow::target_slot;
pub use line::put_line;
pub use look::look_why;
pub use made::Made;
pub use reach::Reach;
pub use search::Search;
pub use standing::Standing;
pub use sure::Sure;
pub use whynot::put_whynot;
