//! Laws of the definitions, each proved as the contract of a function that does nothing.
ghost use Rattle.bpf_entries.specs.Keeping.{kept_weight};
ghost use Rattle.bpf_journal.specs.Histories.{record_weight};
ghost use Rattle.bpf_journal.specs.Lookups.{LastChangeIsLatest, NoChangeNoDifference};
ghost use Rattle.bpf_journal.specs.Replaced.{EntriesTellBefore};
ghost use Rattle.bpf_journal.specs.Laws.{FitIsLongest, NewIsKept, DroppedIsForgotten, EveryEntryIsKept, OneAfter, OneBefore, ReplayIsExact, RefusedLeadsNowhere};

/// What is kept is the longest list of newest records, or of their entries, that weighs at most the
/// room.
#[tactic(none)]
pub fn what_fits_is_the_longest()
    ensures records { FitIsLongest record_weight }
    ensures entries { FitIsLongest kept_weight }
{}

/// A new record that weighs at most the room is kept, as every entry that fits its fields is in
/// every journal.
#[tactic(none)]
pub fn the_new_one_is_kept()
    ensures records { NewIsKept record_weight }
    ensures entries { NewIsKept kept_weight }
    ensures every { EveryEntryIsKept }
{}

/// What was dropped before makes no difference to what is kept.
#[tactic(none)]
pub fn the_dropped_is_forgotten()
    ensures records { DroppedIsForgotten record_weight }
    ensures entries { DroppedIsForgotten kept_weight }
{}

/// A move leads to one state only, and its entry leads back from there to one state only, in every
/// component: replay is exact.
#[tactic(none)]
pub fn moves_go_one_way_and_back()
    ensures after { OneAfter }
    ensures before { OneBefore }
    ensures replay { ReplayIsExact }
{}

/// A refused edit, or a step of a machine that has ended, is no move: it leads to no state.
#[tactic(none)]
pub fn the_refused_leads_nowhere()
    ensures { RefusedLeadsNowhere }
{}

/// The entry of a move tells, from the depth and the bytes behind it, the depth and each byte
/// before it.
#[tactic(none)]
pub fn entries_tell_before()
    ensures { EntriesTellBefore }
{}

/// The latest change of a byte is one, and the byte kept its value since; where there is none, it
/// never changed.
#[tactic(none)]
pub fn the_last_change_is_latest()
    ensures some { LastChangeIsLatest }
    ensures none { NoChangeNoDifference }
{}
