//! A law of the definitions, proved as the contract of a function that does nothing.
ghost use Rattle.bpf_opening.specs.Openings.{BareIsInitial};

/// Where nothing is asked, a program is run from the initial state.
#[tactic(none)]
pub fn bare_is_initial()
    ensures { BareIsInitial }
{}
