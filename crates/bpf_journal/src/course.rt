//! A machine with the keeper of the moves that led to its state, and with those that were taken
//! back.
ghost use Rattle.std.specs.Prelude.{◌≡◌, ◌≤◌, List, length, min, count_by, sum_by, OnOk, IfOk, IfErr, false};
ghost use Rattle.bpf_entries.specs.Status.{has_ended};
ghost use Rattle.bpf_machine.specs.declared.moves.Move.TheVariants as move_of;
ghost use Rattle.bpf_steps.specs.ByAddress.{byte};
ghost use Rattle.bpf_journal.specs.Courses.{FailsThere, GoesBackOne, MakesAgain, MakesAllAgain, MakesNew, StaysThere};
ghost use Rattle.bpf_journal.specs.GoingBack.{GoesBackBy};
ghost use Rattle.bpf_journal.specs.Histories.{HasHistory, Record, StandsFor, is_step, record_weight};
ghost use Rattle.bpf_journal.specs.Lookups.{last_change};
ghost use Rattle.bpf_journal.specs.Runs.{RunsOn, grown_by};
ghost use Rattle.bpf_journal.specs.Timelines.{beside, refusals_by, TriesStep};
ghost use Rattle.bpf_journal.specs.Tracks.{Follows, IsCourse, Track, track_after, track_of, CanOpen};

use crate::again::{entry_again, move_again};
use crate::fault::TimelineFault;
use crate::keeper::Keeper;
use crate::run::Run;
use crate::taken::Taken;
use crate::timeline::{ByteChange, Timeline};
use bpf_machine::laws::entries_fit;
use bpf_machine::{Cpu, Edit};
use bpf_ring::{RingKeeper, Stays, StopTest};
use std::marker::Model;

/// A machine and a keeper, and the moves that were taken back since the latest new one. What is
/// kept of these lies in a ring of the journal's size, so that to make them again takes no memory
/// of its own.
#[derive(Drop)]
pub struct Course<K: Keeper> {
    timeline: Timeline<K>,
    redo: RingKeeper,
}

impl<K: Keeper> Model for Course<K> {
    ghost use Rattle.bpf_journal.specs.Tracks.{CourseValue, IsCourse};

    ghost Value = { CourseValue K };

    ghost view = { λ c. record { state = c.timeline.state; keeper = c.timeline.keeper; redo = c.redo } };

    ghost invariant = { λ c. IsCourse K.holds K.room (record { state = c.timeline.state; keeper = c.timeline.keeper; redo = c.redo }) };
}

impl<K: Keeper> Course<K> {
    /// A machine with a keeper that holds the entries of some history that leads to the machine's
    /// state, and an empty ring of the keeper's capacity.
    pub fn open(cpu: Cpu, keeper: K, redo: RingKeeper) -> Course<K>
        requires { CanOpen K.holds K.room keeper cpu redo }
        ensures value { result ≡ record { state = cpu; keeper = keeper; redo = redo } }
        ensures stands { (h : List Record) → StandsFor K.holds keeper cpu h →
            Follows K.holds result (track_of h) }
    {
        keeper.invariant();
        Course {
            timeline: Timeline::open(cpu, keeper),
            redo,
        }
    }

    /// Gives the machine and the keeper back as they stand. What was taken back is dropped.
    pub fn close(self) -> (Cpu, K)
        ensures same { result ≡ (self.state, self.keeper) }
        ensures history { HasHistory K.holds result.1 result.0 }
    {
        let Course { timeline, redo: _ } = self;
        timeline.close()
    }

    /// Brings into a proof that there is a track.
    pub fn invariant(&self)
        ensures { IsCourse K.holds K.room self.now }
    {
        let _redo = &self.redo;
    }

    /// The machine.
    pub fn cpu(&self) -> &Cpu
        ensures { result.now ≡ self.now.state }
    {
        self.timeline.cpu()
    }

    /// The keeper.
    pub fn keeper(&self) -> &K
        ensures { result.now ≡ self.now.keeper }
    {
        self.timeline.keeper()
    }

    /// How many moves are kept.
    pub fn len(&self) -> usize
        ensures { (t : Track) → Follows K.holds self.now t → result ≡ length t.history }
    {
        self.timeline.len()
    }

    /// How many of them are marked.
    pub fn marked(&self) -> usize
        ensures { (t : Track) → Follows K.holds self.now t →
            result ≡ count_by (λ r. r.mark) t.history }
    {
        self.timeline.marked()
    }

    /// The sum of their weights in bytes, at most the journal's size.
    pub fn weight(&self) -> usize
        ensures { (t : Track) → Follows K.holds self.now t →
            result ≡ sum_by record_weight t.history }
    {
        self.timeline.weight()
    }

    /// How many of them are steps, counted up to `most`.
    pub fn steps_up_to(&self, most: u64) -> u64
        ensures { (t : Track) → Follows K.holds self.now t →
            result ≡ min most (count_by (λ r. is_step r.move) t.history) }
    {
        self.timeline.steps_up_to(most)
    }

    /// How many moves can be made again.
    pub fn ahead(&self) -> usize
        ensures { (t : Track) → Follows K.holds self.now t → result ≡ length t.ahead }
    {
        self.redo.len()
    }

    /// The latest kept move, a step or an edit, that changed the value of the byte at an address,
    /// which is `value` now. None where no kept move changed it.
    pub fn last_change(&self, address: u64, value: u8) -> Option<ByteChange>
        requires { value ≡ byte self.now.state address }
        ensures { (t : Track) → Follows K.holds self.now t →
            result ≡ last_change address t.history self.now.state }
    {
        self.timeline.last_change(address, value)
    }

    /// Takes a step, a new move, and keeps it. Answers whether it replaced bytes of memory. Nothing
    /// changes where the machine has ended, or where the keeper refuses.
    pub fn step(&mut self, mark: bool) -> Result<bool, TimelineFault>
        ensures { TriesStep K.refused K.room
            (MakesNew K.holds (K.room self.old.keeper) move_of.Step mark self.old self.new)
            (FailsThere K.holds move_of.Step self.old self.new)
            self.old.state result self.old.keeper self.new.keeper }
    {
        match self.timeline.step(mark) {
            Ok(replaced) => {
                self.redo.clear();
                Ok(replaced)
            }
            Err(fault) => Err(fault),
        }
    }

    /// Takes steps from a running machine, new moves, and keeps each, the first one with a mark:
    /// until the machine has ended, a test holds of the last step, or `most` are taken, at least
    /// one. Where the keeper refuses a step the run is cut short before it; where that is the first
    /// one, nothing changes.
    pub fn run<T: StopTest>(&mut self, most: u64, test: &T) -> Run
        requires runs { has_ended self.old.state.status ≡ false }
        requires some { 1 ≤ most }
        ensures { RunsOn (grown_by K.refused K.room track_after)
            (Follows K.holds self.old) (Follows K.holds self.new) (T.test test.now) most
            (beside self.old.state self.old.keeper) (beside self.new.state self.new.keeper)
            result }
    {
        let run = self.timeline.run(most, test);
        if run.steps == 0 {
            return run;
        }
        self.redo.clear();
        run
    }

    /// Makes an edit, a new move, and keeps it. Nothing changes where the edit is refused, or where
    /// the keeper refuses.
    pub fn edit(&mut self, edit: &Edit, mark: bool) -> Result<(), TimelineFault>
        ensures ok { OnOk result
            (MakesNew K.holds (K.room self.old.keeper) (move_of.Edit edit.now)
            mark self.old self.new) }
        ensures err { IfErr result (FailsThere K.holds (move_of.Edit edit.now) self.old self.new) }
        ensures refused { K.refused self.new.keeper
            ≡ refusals_by result (K.refused self.old.keeper) }
        ensures room { K.room self.new.keeper ≡ K.room self.old.keeper }
    {
        match self.timeline.edit(edit, mark) {
            Ok(()) => {
                self.redo.clear();
                Ok(())
            }
            Err(fault) => Err(fault),
        }
    }

    /// Goes back by one move, to the state before it: the move can be made again. Answers what move
    /// it was, None where none is kept. Of a step its entry is handed over as it is kept.
    #[inline(always)]
    pub fn back(&mut self) -> Option<Taken>
        ensures back { (t : Track) → Follows K.holds self.old t →
            GoesBackOne K.holds result t.history t.ahead self.old self.new }
        ensures refused { K.refused self.new.keeper ≡ K.refused self.old.keeper }
        ensures room { K.room self.new.keeper ≡ K.room self.old.keeper }
    {
        match self.timeline.hand_back(&mut self.redo) {
            Some(taken) => Some(taken),
            None => self.back_by_entry(),
        }
    }

    /// Goes back by some of the newest moves at once, at most so many, maybe none: they can be made
    /// again. Each is a step without a mark. It stops in front of a move from a slot that `marks`
    /// has, by the slot's remainder, and in front of one that changed what `stays` names. Answers how
    /// many.
    pub fn back_steps(&mut self, most: u64, marks: &[bool; 8192], stays: Stays) -> u64
        ensures within { result ≤ most }
        ensures back { (t : Track) → Follows K.holds self.old t →
            GoesBackBy K.holds marks.now stays self.new
            result t.history t.ahead self.old.state }
        ensures refused { K.refused self.new.keeper ≡ K.refused self.old.keeper }
        ensures room { K.room self.new.keeper ≡ K.room self.old.keeper }
    {
        self.timeline
            .hand_back_steps(&mut self.redo, most, marks, stays)
    }

    /// Takes the newest move back by way of its entry, as a value.
    #[inline(never)]
    fn back_by_entry(&mut self) -> Option<Taken>
        ensures back { (t : Track) → Follows K.holds self.old t →
            GoesBackOne K.holds result t.history t.ahead self.old self.new }
        ensures refused { K.refused self.new.keeper ≡ K.refused self.old.keeper }
        ensures room { K.room self.new.keeper ≡ K.room self.old.keeper }
    {
        match self.timeline.last() {
            Some((entry, mark)) => {
                self.timeline.cpu().invariant();
                entries_fit();
                let again = entry_again(self.timeline.cpu(), entry);
                self.redo.push(&again, mark);
                self.timeline.back()
            }
            None => None,
        }
    }

    /// Makes the next one of the moves again that were taken back. Answers whether there was one. A
    /// refusal, for want of memory for its entry, changes nothing.
    #[inline(always)]
    pub fn redo(&mut self) -> Result<bool, TimelineFault>
        ensures ok { IfOk result (λ made. (t : Track) → Follows K.holds self.old t →
            MakesAgain K.holds made t.history t.ahead self.old self.new) }
        ensures err { IfErr result (λ fault. (fault ≡ TimelineFault.OutOfMemory)
            × StaysThere K.holds self.old self.new) }
        ensures refused { K.refused self.new.keeper
            ≡ refusals_by result (K.refused self.old.keeper) }
        ensures room { K.room self.new.keeper ≡ K.room self.old.keeper }
    {
        let Some(head) = self.redo.newest() else {
            return Ok(false);
        };
        let next = Taken::of_tag(head.tag);
        if !next.is_step {
            return self.redo_by_entry();
        }
        match self.timeline.step(next.mark) {
            Ok(_) => {
                self.redo.drop_newest(head);
                Ok(true)
            }
            Err(TimelineFault::Move(_)) => unreachable!(),
            Err(TimelineFault::OutOfMemory) => Err(TimelineFault::OutOfMemory),
        }
    }

    /// Makes the next ones of the steps again that were taken back, at most so many: as far as none
    /// is marked, and the keeper takes them in one go, maybe none; a step that leads to a slot that
    /// `marks` has, by the slot's remainder, is the last one. Answers how many.
    pub fn redo_steps(&mut self, most: u64, marks: &[bool; 8192]) -> u64
        ensures within { result ≤ most }
        ensures made { (t : Track) → Follows K.holds self.old t →
            MakesAllAgain K.holds result t.history t.ahead self.old.state self.new }
        ensures refused { K.refused self.new.keeper ≡ K.refused self.old.keeper }
        ensures room { K.room self.new.keeper ≡ K.room self.old.keeper }
    {
        let stretch = self.redo.newest_stretch(most);
        let taken = self.timeline.repeat(stretch.count, marks);
        self.redo.drop_of(stretch, taken);
        taken
    }

    /// Makes the oldest move again that was taken back, by way of the entry that is kept of it.
    #[inline(never)]
    fn redo_by_entry(&mut self) -> Result<bool, TimelineFault>
        ensures ok { IfOk result (λ made. (t : Track) → Follows K.holds self.old t →
            MakesAgain K.holds made t.history t.ahead self.old self.new) }
        ensures err { IfErr result (λ fault. (fault ≡ TimelineFault.OutOfMemory)
            × StaysThere K.holds self.old self.new) }
        ensures refused { K.refused self.new.keeper
            ≡ refusals_by result (K.refused self.old.keeper) }
        ensures room { K.room self.new.keeper ≡ K.room self.old.keeper }
    {
        let Some((entry, mark)) = self.redo.last() else {
            return Ok(false);
        };
        match self.timeline.make(&move_again(&entry), mark) {
            Ok(()) => {
                self.redo.drop_last();
                Ok(true)
            }
            Err(TimelineFault::Move(_)) => unreachable!(),
            Err(TimelineFault::OutOfMemory) => Err(TimelineFault::OutOfMemory),
        }
    }
}
