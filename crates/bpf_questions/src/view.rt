//! What a session is asked with.

use crate::message::Form;
use crate::stop::Stop;
use bpf_lines::{DebugInfo, Names};
use bpfdb_script::SlotTexts;

/// What a session is asked with.
#[derive(Clone, Copy)]
pub struct View<'a> {
    /// Whether lines may ask; else a question is a line like another, and no command.
    pub asks: bool,
    /// The form of replies.
    pub form: Form,
    /// The most lines of moves that an answer tells.
    pub lines: u64,
    /// The names of the places in maps that an answer tells, where they are known.
    pub names: Option<&'a Names<'a>>,
    /// What names the places that `whynot` is asked about.
    pub info: DebugInfo<'a>,
    /// Where each slot stands in C, where that is known: it ends the lines of moves.
    pub places: SlotTexts<'a>,
    /// Whether the session is strict: behind no edit its forward commands stop at `stop`.
    pub is_strict: bool,
    /// The read that stops the run of a strict session, where there is one.
    pub stop: Option<Stop<'a>>,
}
