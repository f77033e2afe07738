//! Keepers hold the entries and marks of moves, the newest ones that fit a journal's size.
ghost use Rattle.std.specs.Prelude.{◌≡◌, ◌≤◌, ◌<◌, ◌+◌, ◌^◌, ℕ, List, length, sum_by, count_by, None, false};
ghost use Rattle.bpf_entries.specs.Fields.{FitsFields};
ghost use Rattle.bpf_entries.specs.Keeping.{Kept, kept_weight};
ghost use Rattle.bpf_entries.specs.Status.{has_ended};
ghost use Rattle.bpf_steps.specs.Entries.{step_entry};
ghost use Rattle.bpf_steps.specs.Next.{change as change_of};
ghost use Rattle.bpf_ring.specs.Moments.{beside};
ghost use Rattle.bpf_ring.specs.Runs.{kept_after, kept_on};
ghost use Rattle.bpf_ring.specs.Ways.{HandsBack};
ghost use Rattle.bpf_ring.specs.Touched.{newest_touched};
ghost use Rattle.bpf_journal.specs.EditEntries.{HoldsSome, is_of_step};
ghost use Rattle.bpf_journal.specs.Handing.{HandsOver, HandsOverSteps};
ghost use Rattle.bpf_journal.specs.Histories.{HasHistory, Record, StandsFor, newest};
ghost use Rattle.bpf_journal.specs.TakingBack.{TakesBack};
ghost use Rattle.bpf_journal.specs.Keepers.{IsPlace, IsWithin, Keeps, Passes, PlacesDiffer, TakesNewest, TellsByteBefore, WalksBack, known_by, next_after};
ghost use Rattle.bpf_journal.specs.Runs.{GoesOn, RunsOn, grown_by};

use crate::fields::{is_of_step, step_count};
use crate::run::Run;
use crate::taken::Taken;
use bpf_machine::laws::entries_fit;
use bpf_machine::{Change, Cpu, Ended, Entry};
use bpf_ring::{PassedOver, RingKeeper, Stays, StopTest, Touched, change_replaces_bytes};
use std::alloc::AllocError;

/// Keeps the newest entries of moves, in a journal of some size. Its content is a list of entries
/// and marks, the newest first, and it is known by the lists that it holds: what a call says, it
/// says of each of them.
pub trait Keeper {
    /// Whether it holds this list.
    ghost holds: { Self → List Kept → Type 0 };

    /// The journal's size in bytes.
    ghost room: { Self → ℕ };

    /// How many pushes it has refused, at most 2^64 - 1.
    ghost refused: { Self → ℕ };

    /// The place of a front: of the part of a list that is left without some of its newest.
    ghost place: { Self → List Kept → ℕ };

    /// Brings into a proof that what is held weighs at most the journal's size, which is 1,024 to
    /// 16,777,216 bytes.
    fn invariant(&self)
        ensures { (es : List Kept) → holds self.now es → IsWithin (room self.now) es };

    /// Keeps one more entry, and drops the fewest oldest ones that make room for it. A refusal, for
    /// want of memory, changes nothing that is held.
    fn push(&mut self, entry: &Entry, mark: bool) -> Result<(), AllocError>
        requires { FitsFields entry.now }
        ensures { Keeps holds refused room (entry.now, mark) result self.old self.new };

    /// Lets a machine take the step that `look` answered of it, and keeps the entry of that step,
    /// as `push` does. Where the entry is refused the machine stays as well. A keeper that writes
    /// an entry where it is kept writes this anew; by itself it makes the entry and pushes it.
    fn record(&mut self, cpu: &mut Cpu, change: &Change, mark: bool) -> Result<(), AllocError>
        requires runs { has_ended cpu.old.status ≡ false }
        requires looked { change.now ≡ change_of cpu.old }
        ensures kept { Keeps holds refused room (step_entry cpu.old, mark)
            result self.old self.new }
        ensures stepped { cpu.new ≡ next_after result cpu.old }
    {
        cpu.invariant();
        entries_fit();
        let entry = cpu.entry(change);
        match self.push(&entry, mark) {
            Ok(()) => {
                cpu.commit(change);
                Ok(())
            }
            Err(_) => Err(AllocError),
        }
    }

    /// Takes steps and keeps each, as `record` does, the first one with a mark: until the machine
    /// has ended, a test holds of the last step, or `most` are taken, at least one. Where a step is
    /// refused the run is cut short before it. A keeper that writes entries where they are kept
    /// writes this anew; by itself it takes a step at a time.
    fn run<T: StopTest>(&mut self, cpu: &mut Cpu, most: u64, test: &T) -> Run
        requires runs { has_ended cpu.old.status ≡ false }
        requires some { 1 ≤ most }
        ensures { RunsOn (grown_by refused room kept_after) (holds self.old) (holds self.new)
            (T.test test.now) most (beside cpu.old self.old) (beside cpu.new self.new) result }
    {
        for k in 0..most {
            let change = match cpu.look() {
                Ok(change) => change,
                Err(Ended) => unreachable!(),
            };
            cpu.invariant();
            let replaced = change_replaces_bytes(&change);
            match self.record(cpu, &change, k == 0) {
                Ok(()) => {}
                Err(_) => {
                    return Run {
                        steps: k,
                        is_cut: true,
                    };
                }
            }
            if test.stops(cpu, replaced) {
                return Run {
                    steps: k + 1,
                    is_cut: false,
                };
            }
        }
        Run {
            steps: most,
            is_cut: false,
        }
    }

    /// Takes common steps, at most so many, and keeps each without a mark: up to one that is none of
    /// those that the keeper takes in one go, or behind one that leads to a slot that `marks` has,
    /// by the slot's remainder. Answers how many, maybe none. By itself a keeper takes none.
    fn repeat(&mut self, cpu: &mut Cpu, most: u64, marks: &[bool; 8192]) -> u64
        ensures { GoesOn (grown_by refused room kept_on) (holds self.old) (holds self.new)
            most (beside cpu.old self.old) (beside cpu.new self.new) result }
    {
        let _cpu = cpu;
        let _most = most;
        let _marks = marks;
        0
    }

    /// How many pushes were refused. It stays once at 2^64 - 1.
    fn refusals(&self) -> u64
        ensures { result ≡ refused self.now };

    /// The newest entry and its mark, None where none is held. It stays.
    fn last(&self) -> Option<(Entry, bool)>
        ensures { (es : List Kept) → holds self.now es → result ≡ newest es };

    /// What the newest entry's move touched, by the depth of calls after it; None where none is held.
    /// A keeper that reads an entry where it is kept writes this anew; by itself it reads the entry
    /// whole.
    fn newest_touched(&self, depth: u32) -> Option<Touched>
        ensures { (es : List Kept) → holds self.now es → result ≡ newest_touched depth es }
    {
        match self.last() {
            Some((entry, _)) => Some(Touched::of(&entry, depth)),
            None => None,
        }
    }

    /// Takes the newest entry off, None where none is held.
    fn pop(&mut self) -> Option<(Entry, bool)>
        ensures taken { TakesNewest holds self.old self.new result }
        ensures refused { refused self.new ≡ refused self.old }
        ensures room { room self.new ≡ room self.old };

    /// Takes the newest entry off and takes its move back: the machine is as it was before that
    /// move. Answers what move it was, None where nothing is held. A keeper that reads an entry
    /// where it is kept writes this anew; by itself it pops the entry and reverts it.
    fn take_back(&mut self, cpu: &mut Cpu) -> Option<Taken>
        requires way { HasHistory holds self.old cpu.old }
        ensures back { (h : List Record) → StandsFor holds self.old cpu.old h →
            TakesBack holds result h cpu.old self.new cpu.new }
        ensures refused { refused self.new ≡ refused self.old }
        ensures room { room self.new ≡ room self.old }
    {
        match self.pop() {
            Some((entry, mark)) => {
                cpu.revert(&entry);
                Some(Taken::of(&entry, mark))
            }
            None => None,
        }
    }

    /// Takes the newest entry off and takes its move back, as `take_back` does, where it is of a
    /// step: a ring keeps it then, with its mark. Answers what move it was; None where nothing is
    /// held, or an edit is the newest, and then nothing changes. A keeper of bytes copies them as
    /// they lie; by itself it reads the entry whole.
    fn hand_back(&mut self, cpu: &mut Cpu, ring: &mut RingKeeper) -> Option<Taken>
        requires way { HasHistory holds self.old cpu.old }
        ensures { HandsOver (known_by holds refused room) result
            (beside cpu.old self.old) (beside cpu.new self.new) ring.old ring.new }
    {
        entries_fit();
        match self.last() {
            Some((entry, mark)) => {
                if !is_of_step(&entry) {
                    return None;
                }
                ring.push(&entry, mark);
                self.take_back(cpu)
            }
            None => None,
        }
    }

    /// Takes the newest moves back, at most so many, as `hand_back` does: as many as the keeper takes
    /// in one go, maybe none, each a step whose entry has no mark. It stops in front of a move from a
    /// slot that `marks` has, by the slot's remainder, and in front of one that changed what `stays`
    /// names. Answers how many. By itself a keeper takes none.
    fn hand_back_steps(
        &mut self,
        cpu: &mut Cpu,
        ring: &mut RingKeeper,
        most: u64,
        marks: &[bool; 8192],
        stays: Stays,
    ) -> u64
        requires way { HasHistory holds self.old cpu.old }
        ensures { HandsOverSteps (known_by holds refused room) (HandsBack marks.now stays) most
            result (beside cpu.old self.old) (beside cpu.new self.new) ring.old ring.new }
    {
        let _cpu = cpu;
        let _ring = ring;
        let _most = most;
        let _marks = marks;
        let _stays = stays;
        0
    }

    /// How many entries are held.
    fn len(&self) -> usize
        ensures { (es : List Kept) → holds self.now es → result ≡ length es };

    /// How many of them are marked.
    fn marked(&self) -> usize
        ensures { (es : List Kept) → holds self.now es → result ≡ count_by (λ k. k.1) es };

    /// How many of them are of steps, and not of edits. By itself a keeper walks over all that it
    /// holds.
    fn steps(&self) -> usize
        requires { HoldsSome holds self.now }
        ensures { (es : List Kept) → holds self.now es →
            result ≡ count_by (λ k. is_of_step k.0) es }
    {
        let mut at = self.end();
        let mut steps = 0;
        for _ in 0..self.len() {
            let Some((entry, _, older)) = self.walk_back(at) else {
                return steps;
            };
            steps += step_count(&entry);
            at = older;
        }
        steps
    }

    /// The sum of their weights.
    fn weight(&self) -> usize
        ensures { (es : List Kept) → holds self.now es → result ≡ sum_by kept_weight es };

    /// The journal's size in bytes. It never changes.
    fn capacity(&self) -> usize
        ensures { result ≡ room self.now };

    /// The place of the whole list.
    fn end(&self) -> usize
        ensures { (es : List Kept) → holds self.now es → result ≡ place self.now es };

    /// The newest entry of the front at a place, its mark, and the place of the front without it;
    /// None for the front without entries.
    fn walk_back(&self, at: usize) -> Option<(Entry, bool, usize)>
        requires { IsPlace holds place self.now at }
        ensures { WalksBack holds place self.now at result };

    /// How many of the newest entries of the front at a place are of moves that left the byte at an
    /// address as it was, which is `value` behind them, maybe none of them; the place of the front
    /// without them; and the depth of calls before them, by that behind them. By itself a keeper
    /// passes over none.
    fn pass_over(&self, at: usize, depth: u32, address: u64, value: u8) -> PassedOver
        requires { IsPlace holds place self.now at }
        ensures { Passes holds place self.now at address value depth result }
    {
        let _byte = (address, value);
        PassedOver {
            count: 0,
            place: at,
            depth,
        }
    }

    /// What the byte at an address and the depth of calls were before the newest entry's move of
    /// the front at a place, where they are `after` and `depth` behind that move, and the place of
    /// the front without that entry; None for the front without entries. A keeper that reads an
    /// entry where it is kept writes this anew; by itself it reads the entry whole.
    fn byte_before(
        &self,
        at: usize,
        depth: u32,
        address: u64,
        after: u8,
    ) -> Option<(u8, u32, usize)>
        requires place { IsPlace holds place self.now at }
        requires shallow { depth + 1 < 2 ^ 32 }
        ensures { TellsByteBefore holds place self.now at depth address after result }
    {
        match self.walk_back(at) {
            Some((entry, _, older)) => Some((
                entry.byte_before(depth, address, after),
                entry.depth_before(depth),
                older,
            )),
            None => None,
        }
    }

    /// The count of refusals is a number of 64 bits.
    ghost counted: { (keeper : Self) → refused keeper < 2 ^ 64 };

    /// No two fronts of a held list have one place.
    ghost apart: { PlacesDiffer holds place };
}
