//! What an answer is of.

/// What was asked, by which lines have their shapes.
#[derive(Clone, Copy)]
pub enum Answer {
    /// What `run` prints.
    Value,
    /// What `trace`, `origin`, `whynot` and `diff` print.
    Run,
    /// What `trace --profile` prints.
    Profile,
    /// What `trace --calls` prints.
    Calls,
    /// What `check` prints.
    Check,
    /// What `disasm` prints.
    Listing,
    /// What `lines` prints.
    Lines,
    /// What `load` prints.
    Program,
    /// What `test` prints.
    Report,
}
