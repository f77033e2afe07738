//! Laws of the definitions, each proved as the contract of a function that does nothing.
ghost use Rattle.bpf_origin.specs.Laws.{MovesKeepOtherPlaces, MovesWriteWhatTheyRead, StepsGoByConditions};
ghost use Rattle.bpf_origin.specs.Matters.{EachReadMatters};
ghost use Rattle.bpf_origin.specs.Meaning.{AgreeingRunsGoAlike, LeftIsAll, RowsAreHits};

/// A move changes no place but those that it writes.
#[tactic(none)]
pub fn moves_are_local()
    ensures { MovesKeepOtherPlaces }
{}

/// What a move writes depends on nothing but what it reads and the registers of its addresses: from
/// two states at one point of a program that agree on these it writes the same values to the same
/// places.
#[tactic(none)]
pub fn moves_write_what_they_read()
    ensures { MovesWriteWhatTheyRead }
{}

/// Where a step leads depends besides on nothing but the registers of its conditions: states that
/// agree on these too are at one point of the program after it, with the same status.
#[tactic(none)]
pub fn steps_go_by_conditions()
    ensures { StepsGoByConditions }
{}

/// No read is told in vain: wherever a program stands at an instruction whose operands are different
/// registers, each place that it reads, and each register of its addresses, can be changed alone so
/// that the step writes something else, and each register of its condition so that it goes
/// elsewhere.
#[tactic(none)]
pub fn each_read_matters()
    ensures { EachReadMatters }
{}

/// What is left is all that an answer depends on: two histories along one path with the same
/// addresses, from states that agree on the places that are left, lead to states that agree on the
/// places asked for. An answer that is not cut has a row of a move just if that wrote a place that
/// the newer ones left wanted, and ends with a row for each of the places that are left.
#[tactic(none)]
pub fn what_is_left_is_all()
    ensures all { LeftIsAll }
    ensures told { RowsAreHits }
{}

/// Two runs of steps go along one path, from states at one point of a program, if they agree before
/// each step on what it reads and on the registers of its addresses and of its condition.
#[tactic(none)]
pub fn agreeing_runs_go_alike()
    ensures { AgreeingRunsGoAlike }
{}
