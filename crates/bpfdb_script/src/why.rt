//! Why a command stopped.

/// Why a command stopped.
#[derive(Clone, Copy)]
pub enum Why {
    /// The machine has ended.
    End,
    /// A breakpoint is at pc.
    Break,
    /// The last step changed a watched byte.
    Watch,
    /// What was asked for is done.
    Done,
    /// The session's limit of steps is reached.
    Limit,
    /// The keeper had no memory for a further step, which was not taken.
    Memory,
    /// Nothing is kept from before.
    Start,
    /// All that was taken back is made again.
    All,
}
