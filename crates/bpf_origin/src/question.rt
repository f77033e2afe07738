//! What is asked about where a value came from, and how far an answer goes.

use bpfdb_script::SlotTexts;
use counted_io::WriteFault;

/// How an answer is made.
#[derive(Clone, Copy)]
pub struct Question<'a> {
    /// Whether the registers that made addresses are followed too.
    pub addresses: bool,
    /// The most lines of moves.
    pub lines: u64,
    /// Whether the oldest kept state is the opening, so that no move was dropped.
    pub opening: bool,
    /// What is told of slots: it ends the line of a step.
    pub places: SlotTexts<'a>,
}

/// How far an answer goes.
#[derive(Clone, Copy)]
pub enum Extent {
    /// To its end.
    Whole,
    /// There are more lines than were asked for.
    Lines,
    /// More than 4,096 places are wanted at one time.
    Places,
}

/// An answer that was written.
#[derive(Drop)]
pub struct Told {
    /// Whether it could be written.
    pub written: Result<(), WriteFault>,
    /// How far it goes.
    pub extent: Extent,
    /// How many moves were taken back for it.
    pub moves: u64,
}
