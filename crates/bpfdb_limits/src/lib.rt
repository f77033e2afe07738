//! Limits of what bpfdb is asked for, and what holds where an option is absent.
#![tactic(auto)]

ghost use Rattle.std.specs.Prelude.{◌↔◌, IsTrue};
ghost use Rattle.bpfdb_limits.specs.Limits.{IsLimit};

/// The greatest count of a command, and the greatest limit of steps.
pub const GREATEST_COUNT: u64 = 1_000_000_000;

/// The journal's size in bytes where none is given.
pub const DEFAULT_JOURNAL: u64 = 65_536;

/// The most steps of a run or of a command where no limit is given.
pub const DEFAULT_LIMIT: u64 = 1_000_000;

/// Whether a number may be the most steps of a run or of a command.
pub fn is_limit(limit: u64) -> bool
    ensures { IsTrue result ↔ IsLimit limit }
{
    (1..=GREATEST_COUNT).contains(&limit)
}
