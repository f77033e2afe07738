//! Laws of the definitions, each proved as the contract of a function that does nothing.
ghost use Rattle.bpf_link_laws.specs.Joins.{CallsAreAnswered, CodesAreJoined, FunctionsStay, JoinedObjectsOpen, OwnSlotsStay};

/// A joined object is an object again, in which the section that was asked for is found: it has the
/// code of both.
#[tactic(none)]
pub fn joined_objects_open()
    ensures { JoinedObjectsOpen }
{}

/// The code that the linker takes of a joined object is that of both: first the first one's, in
/// which each call of a helper that the second one answers is a call of the function that answers
/// it, and each other slot has its bytes; then the second one's as it is.
#[tactic(none)]
pub fn codes_are_joined()
    ensures { CodesAreJoined }
{}

/// In a program that is linked of a joined object each slot of the first one that is reached, that
/// no relocation names, and whose call neither the second one nor a stub answers, has the eight
/// bytes that it has in the first one.
#[tactic(none)]
pub fn own_slots_stay()
    ensures { OwnSlotsStay }
{}

/// And each slot of the second one's functions that is reached, that no relocation names and that
/// calls no helper with a stub has those that it has in the second one.
#[tactic(none)]
pub fn functions_stay()
    ensures { FunctionsStay }
{}

/// Each call of a helper in the first one for which the second one has a function is in the program
/// a call of that function, where it is reached and no relocation names it.
#[tactic(none)]
pub fn calls_are_answered()
    ensures { CallsAreAnswered }
{}
