//! The branch after which a value was overwritten that a kept move made, as the journal's entries
//! tell it.
ghost use Rattle.std.specs.Prelude.{◌≡◌, ◌<◌, ◌+◌, ◌^◌, List, false};
ghost use Rattle.std.specs.Option.{option_map_or};
ghost use Rattle.bpf_isa.specs.Programs.{insn_at};
ghost use Rattle.bpf_entries.specs.Keeping.{Kept};
ghost use Rattle.bpf_steps.specs.Platform.{frame_count};
ghost use Rattle.bpf_whynot.specs.Makings.{HoldsMoves};
ghost use Rattle.bpf_whynot.specs.Overwrites as spec;

use crate::made::Made;
use crate::made_line::made_parts;
use bpf_entries::Entry;
use bpf_isa::{Insn, Program};
use bpf_journal::Keeper;
use bpf_origin::Part;

/// What is known of the moves behind the one that made a value.
#[derive(Clone, Copy)]
pub enum Over {
    /// None wrote where it was made.
    Unwritten,
    /// One did, and before the oldest of these no branch is known.
    Written,
    /// The branch before that one, by how many moves it lies back.
    By(u64),
}

/// The branch after which the value was overwritten that a move made, by how many moves it lies back.
/// The keeper's moves led to a state of this depth of calls.
pub(crate) fn branch_over<K: Keeper>(
    keeper: &K,
    program: &Program,
    depth: u32,
    made: Made,
) -> Option<u64>
    requires some { HoldsMoves K.holds keeper.now }
    requires shallow { depth < frame_count }
    ensures { (es : List Kept) → K.holds keeper.now es →
        result ≡ spec.branch_over program.now made depth es }
{
    keeper.invariant();
    let place = part_made(program, made);
    let own = made.moves;
    let mut deep = depth;
    let mut at = keeper.end();
    let mut over = Over::Unwritten;
    for k in 0..keeper.len() {
        let number = k as u64 + 1;
        if number == own {
            return branch_of(over);
        }
        let Some((entry, _, older)) = keeper.walk_back(at) else {
            return None;
        };
        over = seen(program, place, made.depth, k as u64, deep, &entry, over);
        deep = entry.depth_before(deep);
        at = older;
    }
    branch_of(over)
}

/// The branch, if there is one.
fn branch_of(over: Over) -> Option<u64>
    ensures { result ≡ spec.branch_of over }
{
    match over {
        Over::By(moves) => Some(moves),
        _ => None,
    }
}

/// Where a move made the value.
fn part_made(program: &Program, made: Made) -> Option<Part>
    ensures { result ≡ spec.part_made program.now made }
{
    match program.insn_at(made.slot) {
        Some(insn) => first_part(made_parts(made.depth, &insn).as_slice()),
        None => None,
    }
}

/// The first of some parts.
fn first_part(parts: &[Part]) -> Option<Part>
    ensures { result ≡ spec.first_part parts.now }
{
    match parts {
        [] => None,
        [part, ..] => Some(*part),
    }
}

/// What is known with one more move, which led to this depth of calls: so many lie behind it.
fn seen(
    program: &Program,
    place: Option<Part>,
    own: usize,
    moves: u64,
    depth: u32,
    entry: &Entry,
    over: Over,
) -> Over
    requires { moves + 1 < 2 ^ 64 }
    ensures { result ≡ spec.seen program.now place own moves depth entry.now over }
{
    let deep = depth as usize;
    if deep < own {
        return Over::Unwritten;
    }
    if deep == own {
        at_depth(program, place, moves, entry, over)
    } else {
        over
    }
}

/// The same of a move of the function itself.
fn at_depth(program: &Program, place: Option<Part>, moves: u64, entry: &Entry, over: Over) -> Over
    requires { moves + 1 < 2 ^ 64 }
    ensures { result ≡ spec.at_depth program.now place moves entry.now over }
{
    if writes_there(place, entry) {
        return Over::Written;
    }
    passed(took_branch(program, entry), moves, over)
}

/// The same of one that wrote nothing there.
fn passed(took: bool, moves: u64, over: Over) -> Over
    requires { moves + 1 < 2 ^ 64 }
    ensures { result ≡ spec.passed took moves over }
{
    match (took, over) {
        (true, Over::Written) => Over::By(moves + 1),
        _ => over,
    }
}

/// Whether a move with this entry wrote there.
fn writes_there(place: Option<Part>, entry: &Entry) -> bool
    ensures { result ≡ spec.writes_there place entry.now }
{
    match place {
        Some(part) => writes(part, entry),
        None => false,
    }
}

/// Whether it wrote at a part.
fn writes(part: Part, entry: &Entry) -> bool
    ensures { result ≡ spec.writes part entry.now }
{
    match part {
        Part::Register { number, .. } => replaced(entry, number),
        Part::Bytes { address, .. } => stored(entry, address),
        Part::Word { .. } => false,
    }
}

/// Whether it replaced a register alone.
fn replaced(entry: &Entry, number: u8) -> bool
    ensures { result ≡ spec.replaces number entry.now }
{
    match entry {
        Entry::Register { register, .. } => register.number() == number,
        _ => false,
    }
}

/// Whether it stored at an address alone.
fn stored(entry: &Entry, at: u64) -> bool
    ensures { result ≡ spec.stores at entry.now }
{
    match entry {
        Entry::Store { address, .. } => *address == at,
        _ => false,
    }
}

/// Whether it took a conditional jump.
fn took_branch(program: &Program, entry: &Entry) -> bool
    ensures { result ≡ spec.took_branch program.now entry.now }
{
    match entry {
        Entry::Jump { pc } => is_branch(program, usize::from(*pc)),
        _ => false,
    }
}

/// Whether a conditional jump stands in a slot.
fn is_branch(program: &Program, slot: usize) -> bool
    ensures { result ≡ option_map_or spec.is_conditional (insn_at program.now slot) false }
{
    match program.insn_at(slot) {
        Some(Insn::JumpIf { .. }) => true,
        _ => false,
    }
}
