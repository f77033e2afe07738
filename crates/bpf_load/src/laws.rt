//! A law of the definitions, proved as the contract of a function that does nothing.
ghost use Rattle.bpf_load.specs.KindLaws.{ProgramsAreWords};

/// A program that the checker accepts is taken for no object and no listing, whatever its name.
#[tactic(none)]
pub fn programs_are_words()
    ensures { ProgramsAreWords }
{}
