//! Scripts whose lines may ask a session: where a value came from, why the program did not come to a slot.
//! Replies are written as `debug` writes them, or each as a line of JSON with the number of the line that
//! it answers. A strict session stops where a strict run does, behind no edit.
#![tactic(auto)]

mod answers;
mod conversation;
mod fault;
mod inquiry;
mod message;
mod obeying;
mod stop;
mod view;

pub use conversation::converse;
pub use fault::ConversationFault;
pub use inquiry::{Inquiry, Topic, inquiry_in};
pub use message::{Form, Kind, Message, write_message};
pub use stop::{Past, Stop};
pub use view::View;
