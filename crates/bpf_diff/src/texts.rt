//! What is told of the slots of two runs.
use bpfdb_script::SlotTexts;

/// What is told of the slots of two programs that are compared: it ends the lines of their steps.
#[derive(Clone, Copy)]
pub struct BothTexts<'a> {
    pub first: SlotTexts<'a>,
    pub second: SlotTexts<'a>,
}
