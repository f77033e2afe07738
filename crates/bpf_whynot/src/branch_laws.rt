//! Laws of the definitions, each proved as the contract of a function that does nothing.
ghost use Rattle.bpf_whynot.specs.BranchLaws.{BranchesLeadThere, KeptIsNotWritten, LoneBranchesArePassedAgain, OlderIsDecided, SureGoesOn, SureIsComeTo, TurnedBranchesLeadElsewhere};

/// Where a branch decided that a function came to a slot, and went a way that leads surely to an
/// older slot, and from there surely to that one, it decided that the function came to the older
/// one, too. So of all that is to be explained in a call it is enough to look for the oldest.
#[tactic(none)]
pub fn older_is_decided()
    ensures on { SureGoesOn }
    ensures decided { OlderIsDecided }
{}

/// What is sure comes: from a state from which a function comes surely to a slot, no run of the
/// machine comes to an end of the function without having stood there.
#[tactic(none)]
pub fn sure_is_come_to()
    ensures { SureIsComeTo }
{}

/// What isn't sure comes by a branch that decides it, or not at all.
#[tactic(none)]
pub fn branches_lead_there()
    ensures { BranchesLeadThere }
{}

/// A branch that is told went the way that leads surely to its slot. Had it gone the other way, the
/// machine would come there only by a branch that decides that anew, or not at all.
#[tactic(none)]
pub fn turned_branches_lead_elsewhere()
    ensures { TurnedBranchesLeadElsewhere }
{}

/// Where no other branch of the program decides that, it comes there only by this one again.
#[tactic(none)]
pub fn lone_branches_are_passed_again()
    ensures { LoneBranchesArePassedAgain }
{}

/// What is kept isn't written: from where a function can't write some places before it comes to a
/// slot, no run of the machine takes a step, in that call, at an instruction that may write one.
#[tactic(none)]
pub fn kept_is_not_written()
    ensures { KeptIsNotWritten }
{}
