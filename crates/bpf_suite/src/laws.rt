//! Laws of the definitions, each proved as the contract of a function that does nothing.
ghost use Rattle.bpf_suite.specs.Regs.{LastLinesCount};

/// Registers get the same numbers by the last line of each as by all lines, one after another.
#[tactic(none)]
pub fn last_lines_count()
    ensures { LastLinesCount }
{}
