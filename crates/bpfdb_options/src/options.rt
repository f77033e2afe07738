//! The options of each run.
use bpfdb_limits::{DEFAULT_JOURNAL, DEFAULT_LIMIT};

/// How a program is run. What a subcommand doesn't have stands as when it is absent.
#[derive(Clone, Copy)]
pub struct Options<'a> {
    /// The journal's size in bytes; one that can be opened has 1,024 to 16,777,216.
    pub journal: u64,
    /// The values that registers have before the first step, as `r1=0x5,r3=context+4`; without it none has
    /// one of its own.
    pub regs: Option<&'a str>,
    /// The most steps of a run or of a command, 1 to 1,000,000,000.
    pub limit: u64,
}

/// The options where each is absent.
pub const NO_OPTIONS: Options<'static> = Options {
    journal: DEFAULT_JOURNAL,
    regs: None,
    limit: DEFAULT_LIMIT,
};
