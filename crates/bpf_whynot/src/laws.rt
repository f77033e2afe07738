//! Laws of the definitions, each proved as the contract of a function that does nothing.
ghost use Rattle.bpf_whynot.specs.Laws.{AnswersAreOfTheLatest, OutOfReachStays};

/// Where a goal can't be come to any more, the answer is of the latest move from whose state it
/// can: from no state since can it; or of none, and it can from no state that the history has.
#[tactic(none)]
pub fn answers_are_of_the_latest()
    ensures { AnswersAreOfTheLatest }
{}

/// Out of reach is out of reach for good: from a state from which no goal can be come to no run of
/// the machine takes a step at one.
#[tactic(none)]
pub fn out_of_reach_stays()
    ensures { OutOfReachStays }
{}
