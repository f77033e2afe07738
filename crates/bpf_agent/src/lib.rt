//! Expressions as gdb sends them for conditions of breakpoints, and their values in a machine.
#![tactic(auto)]

mod arithmetic;
mod conditions;
mod expression;
mod registers;
mod stack;

pub use conditions::Conditions;
pub use expression::value;
pub use registers::value_of;
