//! Laws of the definitions, each proved as the contract of a function that does nothing.
ghost use Rattle.bpf_link.specs.Followed.{ReachedLeadToReached};
ghost use Rattle.bpf_link.specs.Untouched.{OtherSlotsStay};

/// What linking leaves: a slot of the section, or of `.text` behind it, that is reached from the
/// entry, that no relocation names and that calls no helper with a stub stands in the words with the
/// eight bytes that it has in its section. The slots stand in the order of the sections, behind the
/// jump where there is one.
#[tactic(none)]
pub fn other_slots_stay()
    ensures { OtherSlotsStay }
{}

/// What runs was linked: from a slot that is reached from the entry the code leads to no other slots
/// than such, so that none of those that are `exit` in its place is come to.
#[tactic(none)]
pub fn reached_lead_to_reached()
    ensures { ReachedLeadToReached }
{}
