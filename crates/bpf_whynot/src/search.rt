//! What is asked about an instruction that was not come to, and how.

use crate::made::Made;
use crate::reach::Reach;
use bpf_origin::Question;

/// What is asked, and how.
#[derive(Clone, Copy)]
pub struct Search<'a> {
    /// From where the goals can be come to.
    pub reach: &'a Reach,
    /// The goals, one flag a slot.
    pub goals: &'a [bool],
    /// The newest kept move that made the value which is asked about, if one did.
    pub made: Option<Made>,
    /// How the answer about values is made.
    pub question: Question<'a>,
    /// Whether that is left out.
    pub alone: bool,
}
