//! Laws of the definitions, each proved as the contract of a function that does nothing.
ghost use Rattle.bpf_lines_laws.specs.Laws.{JoinedLinesAreTheSlots, LinesAreTheSlots};

/// The table of a program that was linked of FILE, and the words that run: the table has a row for
/// each slot of the code, in the order of the sections, and the slot of the words that a row names
/// has the eight bytes of that slot in its section, where linking leaves it and it is no access to a
/// packet's struct.
#[tactic(none)]
pub fn lines_are_the_slots()
    ensures { LinesAreTheSlots }
{}

/// The same of a program of FILE and of objects that are joined to it, of which the table tells one
/// after another: but for a call of a helper that one of them answers, which is a call of its
/// function.
#[tactic(none)]
pub fn joined_lines_are_the_slots()
    ensures { JoinedLinesAreTheSlots }
{}
