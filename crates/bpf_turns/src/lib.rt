//! An object whose one program calls programs of another object in turn.
#![tactic(auto)]

mod blocks;
mod calls;
mod code;
mod ext;
mod file;
mod headers;
mod names;
mod object;
mod parts;
mod relocations;
mod seats;
mod source;
mod symbols;

pub use object::turned;
pub use seats::TurnFault;
