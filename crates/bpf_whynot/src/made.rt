//! The kept moves that made the value that is asked about, as the journal's entries tell them.
ghost use Rattle.std.specs.Prelude.{◌≡◌, ◌<◌, ◌+◌, ◌^◌, ℕ, List, Some};
ghost use Rattle.bpf_entries.specs.Keeping.{Kept};
ghost use Rattle.bpf_isa.specs.Programs.{Checked};
ghost use Rattle.bpf_steps.specs.Platform.{frame_count};
ghost use Rattle.bpf_whynot.specs.Makings as spec;
ghost use Rattle.bpf_whynot.specs.Tables.{AreGoals, is_in};

use crate::reach::is_flagged;
use bpf_entries::Entry;
use bpf_journal::Keeper;

/// A kept move that made the value that is asked about.
#[derive(Clone, Copy)]
pub struct Made {
    /// How many moves it lies back.
    pub moves: u64,
    /// The slot of its instruction.
    pub slot: usize,
    /// The depth of calls of its function.
    pub depth: usize,
    /// The branch after which the value was overwritten, by how many moves it lies back.
    pub branch: Option<u64>,
}

/// Leaves of the flagged slots those at which no kept move made the value, and answers the newest
/// move that made it. The keeper's moves led to a state of this depth of calls.
pub(crate) fn leave_unmade<K: Keeper>(keeper: &K, depth: u32, flags: &mut [bool]) -> Option<Made>
    requires some { spec.HoldsMoves K.holds keeper.now }
    requires shallow { depth < frame_count }
    ensures left { (es : List Kept) (program : Checked) (goals : List ℕ) → K.holds keeper.now es →
        AreGoals program goals flags.old → AreGoals program (spec.unmade goals es) flags.new }
    ensures newest { (es : List Kept) (program : Checked) (goals : List ℕ) → K.holds keeper.now es →
        AreGoals program goals flags.old → result ≡ spec.newest_made goals 0 depth es }
{
    keeper.invariant();
    let mut deep = depth;
    let mut at = keeper.end();
    let mut newest = None;
    for k in 0..keeper.len() {
        let Some((entry, _, older)) = keeper.walk_back(at) else {
            return newest;
        };
        newest = take_notice(&entry, k as u64, deep, newest, flags);
        deep = entry.depth_before(deep);
        at = older;
    }
    newest
}

/// Takes the slot of an entry's move out of the flagged ones, if the move made the value there, and
/// answers that move, unless a newer one is known. So many moves lie behind it, and functions of this
/// depth of calls.
fn take_notice(
    entry: &Entry,
    moves: u64,
    depth: u32,
    newest: Option<Made>,
    flags: &mut [bool],
) -> Option<Made>
    requires { moves + 1 < 2 ^ 64 }
    ensures left { (program : Checked) (goals : List ℕ) → AreGoals program goals flags.old →
        AreGoals program (spec.without (spec.made_at entry.now) goals) flags.new }
    ensures newest { (program : Checked) (goals : List ℕ) → AreGoals program goals flags.old →
        result ≡ spec.or_older newest (spec.made_by_move goals moves depth (spec.made_at entry.now)) }
{
    let Some(slot) = made_at(entry) else {
        return newest;
    };
    if !unflag(flags, slot) {
        return newest;
    }
    older_of(
        newest,
        Made {
            moves: moves + 1,
            slot,
            depth: depth as usize,
            branch: None,
        },
    )
}

/// The slot of a step that replaced a register alone, or bytes of memory.
fn made_at(entry: &Entry) -> Option<usize>
    ensures { result ≡ spec.made_at entry.now }
{
    match entry {
        Entry::Register { pc, .. } => Some(usize::from(*pc)),
        Entry::Store { pc, .. } => Some(usize::from(*pc)),
        _ => None,
    }
}

/// Takes a slot out of the flagged ones, and answers whether it was one.
fn unflag(flags: &mut [bool], slot: usize) -> bool
    ensures value { result ≡ is_in flags.old slot }
    ensures left { (program : Checked) (goals : List ℕ) → AreGoals program goals flags.old →
        AreGoals program (spec.without (Some slot) goals) flags.new }
{
    if !is_flagged(flags, slot) {
        return false;
    }
    flags[slot] = false;
    true
}

/// The newer one of two, where the first one is known.
fn older_of(newest: Option<Made>, older: Made) -> Option<Made>
    ensures { result ≡ spec.or_older newest (Some older) }
{
    match newest {
        Some(made) => Some(made),
        None => Some(older),
    }
}
