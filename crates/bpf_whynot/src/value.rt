//! Moves that made a value whose branches are asked for: those that the answer about the value tells.
ghost use Rattle.std.specs.Prelude.{◌≡◌, ◌∷◌, List, take, true, false};
ghost use Rattle.bpf_entries.specs.Past.{past};
ghost use Rattle.bpf_entries.specs.Status.{has_ended};
ghost use Rattle.bpf_journal.specs.Histories.{Record, is_step as is_step_of};
ghost use Rattle.bpf_journal.specs.Tracks.{Follows};
ghost use Rattle.bpf_machine.specs.Moves.{overwritten};
ghost use Rattle.bpf_machine.specs.declared.moves.Move.{Move};
ghost use Rattle.bpf_origin.specs.Reads.{followed as followed_by};
ghost use Rattle.bpf_origin.specs.Wanted as wanted_of;
ghost use Rattle.bpf_origin.specs.Writes as writes;

use bpf_journal::{Course, Keeper};
use bpf_machine::{Cpu, Entry};
use bpf_origin::{Past, Wanted, followed, written};

/// Whether the newest move that is kept wrote a wanted place. What is wanted still before it is
/// left.
pub fn spare_written<K: Keeper>(course: &Course<K>, wanted: &mut Wanted) -> bool
    ensures hit { (r : Record) (h f : List Record) →
        Follows K.holds course.now (record { history = r ∷ h; ahead = f }) →
        result ≡ wanted_of.are_hit
        (writes.written course.now.state (overwritten r.before r.move)) wanted.old }
    ensures still { (r : Record) (h f : List Record) →
        Follows K.holds course.now (record { history = r ∷ h; ahead = f }) → wanted.new
        ≡ wanted_of.still_wanted course.now.state (overwritten r.before r.move) wanted.old }
{
    let Some((entry, _)) = course.newest() else {
        return false;
    };
    let cpu = course.cpu();
    let wrote = written(cpu, &entry);
    let hit = wanted.are_hit(wrote.as_slice());
    wanted.spare(wrote.as_slice());
    carry(wanted, cpu.depth(), &entry);
    hit
}

/// What is wanted before a move with this entry, which left a depth of calls and wrote none of that.
fn carry(wanted: &mut Wanted, deep: usize, entry: &Entry)
    ensures { wanted.new ≡ wanted_of.carried (past deep entry.now).frames deep wanted.old }
{
    match entry {
        Entry::Call { .. } => wanted.carry(deep),
        _ => {}
    }
}

/// What a move read that was taken back is wanted, as much of it as there is room for: of a step in
/// the state before it. Answers whether all is.
pub fn want_read(cpu: &Cpu, is_step: bool, addresses: bool, wanted: &mut Wanted) -> bool
    requires { is_step ≡ true → has_ended cpu.now.status ≡ false }
    ensures { (m : Move) → is_step ≡ is_step_of m → wanted.new ≡ take wanted_of.most_places
        (wanted_of.want_parts wanted.old (followed_by addresses cpu.now m)) }
{
    if is_step {
        let read = followed(cpu, addresses);
        wanted.want_parts(read.as_slice())
    } else {
        wanted.want_parts(&[])
    }
}
