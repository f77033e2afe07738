//! Laws of the meaning of commands and of scripts. Each stands on a function without code, since it
//! speaks of the definitions alone.
ghost use Rattle.bpf_session.specs.Laws.{BreakpointsStop, CallsRunAsOne, CommandsAreUndone, CountsAreGoneBack, EachMoveIsKept, GoingBackGivesBack, KeepersAnswerAlike, NoAnswerIsOfMemory, NothingIsLost, NothingRefusedAllPrinted, NothingRefusedNothingMissing, RefusalsAreInOrder, RefusedChangesNothing, ReplayIsTheSame, ScriptsLoseNothing, SessionsArePlaced, ShowsChangeNothing, TakesBackItsMoves, TheFirstReasonStops, TheLatestIsFound, UndoGoesToTheMark, WatchesStop};

use bpf_journal::Keeper;

/// A refused command changes nothing: neither history nor state, breakpoints or watches.
#[tactic(none)]
pub fn refused_changes_nothing()
    ensures { RefusedChangesNothing }
{}

/// A command that only shows changes nothing.
#[tactic(none)]
pub fn shows_change_nothing()
    ensures { ShowsChangeNothing }
{}

/// The refusals of a command that hold stand in the order of their numbers: the one that is
/// answered is the least.
#[tactic(none)]
pub fn refusals_are_in_order()
    ensures { RefusalsAreInOrder }
{}

/// A command that goes forward stops after the first step, of one at least, after which there is a
/// reason for it, and tells the first reason in the order end, break, watch, done, limit.
#[tactic(none)]
pub fn the_first_reason_stops()
    ensures { TheFirstReasonStops }
{}

/// A command passes over no breakpoint on its way forward.
#[tactic(none)]
pub fn breakpoints_stop()
    ensures { BreakpointsStop }
{}

/// A command passes over no change of a watched byte on its way forward.
#[tactic(none)]
pub fn watches_stop()
    ensures { WatchesStop }
{}

/// A called function runs as one step of `nexti`, and `finish` runs until it has returned and no
/// further, unless another stop comes first.
#[tactic(none)]
pub fn calls_run_as_one()
    ensures { CallsRunAsOne }
{}

/// A command that goes back takes back as many moves as it says, of those that are kept, and
/// nothing else.
#[tactic(none)]
pub fn moves_are_taken_back()
    ensures { TakesBackItsMoves }
{}

/// `undo` takes back as many marked moves as it counts and `reverse-stepi` as many steps, and the
/// last move that either takes back is one of these; `reverse-stepi` says `start` where fewer are
/// kept.
#[tactic(none)]
pub fn counts_are_gone_back()
    ensures { CountsAreGoneBack }
{}

/// `reverse-nexti`, `reverse-finish` and `reverse-continue` go back to before the latest move that
/// they look for, and say `start` where none is kept.
#[tactic(none)]
pub fn the_latest_is_found()
    ensures { TheLatestIsFound }
{}

/// Going back over the steps that a command took, or undoing it, gives back the history, the state,
/// the breakpoints and the watches in front of it, where nothing was dropped for them.
#[tactic(none)]
pub fn going_back_gives_back()
    ensures { GoingBackGivesBack }
{}

/// `undo` of as many commands as were given, forward commands and edits, gives back the history, the
/// state, the breakpoints and the watches in front of them, where nothing was dropped for them.
#[tactic(none)]
pub fn commands_are_undone()
    ensures { CommandsAreUndone }
{}

/// What was gone back over comes again, with the same reply.
#[tactic(none)]
pub fn replay_is_the_same()
    ensures { ReplayIsTheSame }
{}

/// Nothing is lost, whatever commands are given: after them the moves that are kept and those that
/// were taken back are together the history as it stood after the last forward command or edit
/// that was accepted, and lead to the state as it stood then. `redo` of everything gives both back.
#[tactic(none)]
pub fn nothing_is_lost()
    ensures { NothingIsLost }
{}

/// A script loses nothing, whatever its lines say: it ends where its commands lead.
#[tactic(none)]
pub fn scripts_lose_nothing()
    ensures { ScriptsLoseNothing }
{}

/// The moves of each session lead to its state and on from it, as the law `nothing_is_lost` asks.
#[tactic(none)]
pub fn sessions_are_placed<K: Keeper>()
    ensures { SessionsArePlaced K.holds }
{}

/// `undo` gives back the state in front of the marked move that it counts to, whatever commands
/// came between.
#[tactic(none)]
pub fn undo_goes_to_the_mark()
    ensures { UndoGoesToTheMark }
{}

/// Where a keeper's refusals didn't rise over a script, and aren't at their last value, no push was
/// refused: what the script prints and where it ends is the same as where each is kept.
#[tactic(none)]
pub fn nothing_refused_nothing_missing()
    ensures walk { NothingRefusedNothingMissing }
    ensures run { NothingRefusedAllPrinted }
{}

/// Over a keeper that refuses no push no answer to a command tells of want of memory, and each
/// command does what it means where each of its moves is kept.
#[tactic(none)]
pub fn no_answer_is_of_memory<K: Keeper>()
    ensures answer { NoAnswerIsOfMemory K.holds K.refused K.room }
    ensures meaning { EachMoveIsKept K.holds K.refused K.room }
{}

/// Over two keepers, as a ring and a list, sessions that stand at one point answer a command alike
/// and stand at one point again, where neither keeper refused a move.
#[tactic(none)]
pub fn keepers_answer_alike<K: Keeper, L: Keeper>()
    ensures { KeepersAnswerAlike K.holds K.refused K.room L.holds L.refused L.room }
{}
