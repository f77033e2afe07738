//! Laws of the definitions, each proved as the contract of a function that does nothing.
ghost use Rattle.bpf_diff.specs.Laws.{AgreementsAreLongest, WritesAreLast};

/// Two runs agree for so many steps just if each of these does, and the one behind them doesn't, or
/// isn't there.
#[tactic(none)]
pub fn agreements_are_longest()
    ensures { AgreementsAreLongest }
{}

/// The step that is told as the last one that wrote a place wrote it, and none behind it did; where
/// none is told, no step of the run wrote it.
#[tactic(none)]
pub fn writes_are_last()
    ensures { WritesAreLast }
{}
