//! Laws of the definitions, each proved as the contract of a function that does nothing.
ghost use Rattle.bpf_isa.specs.Checker.{PiecesAreTheBytes};
ghost use Rattle.bpf_isa.specs.Words.{HaveOneWord, NoneBeginsAnother};

/// An instruction has one spelling, and a text of words can be cut in one way alone.
#[tactic(none)]
pub fn one_spelling()
    ensures only { HaveOneWord }
    ensures within { NoneBeginsAnother }
{}

/// The checker's cut loses no byte and takes none twice.
#[tactic(none)]
pub fn cut_into_pieces()
    ensures { PiecesAreTheBytes }
{}
