//! The remote protocol of gdb, over a session: packets, requests and their answers.
#![tactic(auto)]

mod answer;
mod body;
mod description;
mod digits;
mod frames;
mod help;
mod layout;
mod manners;
mod moves;
mod number;
mod obeying;
mod origin;
mod packet;
mod parser;
mod remark;
mod request;
mod serving;
mod stream;
mod talk;
mod target;
mod ways;
mod whynot;

pub use answer::{Answer, Halt, TOO_LONG};
pub use body::Body;
pub use bpf_origin::Wanted;
pub use layout::Layout;
pub use manners::Manners;
pub use moves::moves_after;
pub use packet::put_packet;
pub use parser::request_of;
pub use remark::Remark;
pub use request::Request;
pub use serving::serve;
pub use stream::{Item, next_item};
pub use target::Target;
