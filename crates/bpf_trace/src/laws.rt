//! Laws of the definitions, each proved as the contract of a function that does nothing.
ghost use Rattle.bpf_trace.specs.Laws.{StepsAreTheRuns};

/// The steps that a trace shows and a profile counts are those of a run without history: as many,
/// and each from the state that the ones before it lead to.
#[tactic(none)]
pub fn steps_are_the_runs()
    ensures { StepsAreTheRuns }
{}
