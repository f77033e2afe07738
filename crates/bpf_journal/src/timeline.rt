//! A machine with the keeper of the moves that led to its state.
ghost use Rattle.std.specs.Prelude.{◌≡◌, ◌≤◌, ◌<◌, List, [], length, map, min, count_by, sum_by, OnOk, IfErr, false, None};
ghost use Rattle.bpf_machine.specs.declared.moves.Move.TheVariants as move_of;
ghost use Rattle.bpf_entries.specs.Status.{has_ended};
ghost use Rattle.bpf_ring.specs.Ways.{HandsBack};
ghost use Rattle.bpf_journal.specs.EditEntries.{HoldsSome};
ghost use Rattle.bpf_entries.specs.Keeping.{Kept};
ghost use Rattle.bpf_journal.specs.Histories.{Record, StandsFor, HasHistory, is_step, kept_of, newest, record_weight};
ghost use Rattle.bpf_journal.specs.Changes.{change_in};
ghost use Rattle.bpf_journal.specs.Lookups.{last_change};
ghost use Rattle.bpf_journal.specs.GoingBack.{made_of};
ghost use Rattle.bpf_journal.specs.Handing.{HandsOver, RingHolds, ring_room};
ghost use Rattle.bpf_steps.specs.ByAddress.{byte};
ghost use Rattle.bpf_steps.specs.Platform.{frame_count};
ghost use Rattle.bpf_journal.specs.Keepers.{known_by};
ghost use Rattle.bpf_journal.specs.Runs.{history_after, history_on, GoesOn, RunsOn, grown_by};
ghost use Rattle.bpf_journal.specs.Timelines.{Moment, Makes, Fails, GoesBack, refusals_by, StandsAt, TriesStep};

use crate::fault::{MoveFault, TimelineFault};
use crate::fields::edit_fits;
use crate::keeper::Keeper;
use crate::run::Run;
use crate::taken::Taken;
use bpf_machine::{Cpu, Edit, Ended, Entry, Move};
use bpf_ring::{RingKeeper, Stays, StopTest, change_replaces_bytes};
use std::marker::Model;

/// A move that changed the value of a byte.
#[derive(Clone, Copy)]
pub struct ByteChange {
    /// How many moves it lies back: 1 is the last move.
    pub moves: u64,
    /// The byte's value before the move.
    pub old: u8,
    /// The byte's value after it.
    pub new: u8,
}

/// A machine and a keeper: there is a history that they stand for.
#[derive(Drop)]
pub struct Timeline<K: Keeper> {
    cpu: Cpu,
    keeper: K,
}

impl<K: Keeper> Model for Timeline<K> {
    ghost use Rattle.bpf_journal.specs.Histories.{HasHistory};
    ghost use Rattle.bpf_journal.specs.Runs.{history_after};
    ghost use Rattle.bpf_journal.specs.Timelines.{Moment};

    ghost Value = { Moment K };

    ghost view = { λ t. record { state = t.cpu; keeper = t.keeper } };

    ghost invariant = { λ t. HasHistory K.holds t.keeper t.cpu };
}

impl<K: Keeper> Timeline<K> {
    /// A machine with a keeper that holds the entries of some history that leads to the machine's
    /// state.
    pub fn open(cpu: Cpu, keeper: K) -> Timeline<K>
        requires { HasHistory K.holds keeper cpu }
        ensures state { result.state ≡ cpu }
        ensures keeper { result.keeper ≡ keeper }
    {
        Timeline { cpu, keeper }
    }

    /// A machine with a keeper that holds nothing yet.
    pub fn start(cpu: Cpu, keeper: K) -> Timeline<K>
        requires { K.holds keeper [] }
        ensures state { result.state ≡ cpu }
        ensures keeper { result.keeper ≡ keeper }
    {
        Timeline { cpu, keeper }
    }

    /// Brings into a proof that there is a history.
    pub fn invariant(&self)
        ensures { HasHistory K.holds self.now.keeper self.now.state }
    {
        let _cpu = &self.cpu;
    }

    /// Gives both back as they stand: `open` takes them again.
    pub fn close(self) -> (Cpu, K)
        ensures same { result ≡ (self.state, self.keeper) }
        ensures history { HasHistory K.holds result.1 result.0 }
    {
        let Timeline { cpu, keeper } = self;
        (cpu, keeper)
    }

    /// The machine.
    pub fn cpu(&self) -> &Cpu
        ensures { result.now ≡ self.now.state }
    {
        &self.cpu
    }

    /// The keeper.
    pub fn keeper(&self) -> &K
        ensures { result.now ≡ self.now.keeper }
    {
        &self.keeper
    }

    /// How many moves are kept.
    pub fn len(&self) -> usize
        ensures { (h : List Record) → StandsFor K.holds self.now.keeper self.now.state h →
            result ≡ length h }
    {
        self.keeper.len()
    }

    /// How many of them are marked.
    pub fn marked(&self) -> usize
        ensures { (h : List Record) → StandsFor K.holds self.now.keeper self.now.state h →
            result ≡ count_by (λ r. r.mark) h }
    {
        self.keeper.marked()
    }

    /// The sum of their weights in bytes, at most the journal's size.
    pub fn weight(&self) -> usize
        ensures { (h : List Record) → StandsFor K.holds self.now.keeper self.now.state h →
            result ≡ sum_by record_weight h }
    {
        self.keeper.weight()
    }

    /// How many of them are steps, counted up to `most`.
    pub fn steps_up_to(&self, most: u64) -> u64
        ensures { (h : List Record) → StandsFor K.holds self.now.keeper self.now.state h →
            result ≡ min most (count_by (λ r. is_step r.move) h) }
    {
        let steps = self.keeper.steps() as u64;
        if steps < most { steps } else { most }
    }

    /// The latest kept move, a step or an edit, that changed the value of the byte at an address,
    /// which is `value` now. The machine isn't moved: each entry tells what the byte was. None
    /// where no kept move changed it. Looks at the entries from the newest to that one.
    pub fn last_change(&self, address: u64, value: u8) -> Option<ByteChange>
        requires { value ≡ byte self.now.state address }
        ensures { (h : List Record) → StandsFor K.holds self.now.keeper self.now.state h →
            result ≡ last_change address h self.now.state }
    {
        self.cpu.invariant();
        change_among(&self.keeper, self.cpu.depth() as u32, address, value)
    }

    /// The entry of the newest move that is kept, and its mark; None where none is kept. It stays.
    pub fn last(&self) -> Option<(Entry, bool)>
        ensures { (h : List Record) → StandsFor K.holds self.now.keeper self.now.state h →
            result ≡ newest (map kept_of h) }
    {
        self.keeper.last()
    }

    /// Takes a step and keeps it. Answers whether it replaced bytes of memory. Nothing changes
    /// where the machine has ended, or where the keeper refuses.
    #[inline(always)]
    pub fn step(&mut self, mark: bool) -> Result<bool, TimelineFault>
        ensures { TriesStep K.refused K.room
            (Makes K.holds (K.room self.old.keeper) move_of.Step mark self.old self.new)
            (Fails K.holds move_of.Step self.old self.new)
            self.old.state result self.old.keeper self.new.keeper }
    {
        self.cpu.invariant();
        let change = match self.cpu.look() {
            Ok(change) => change,
            Err(Ended) => return Err(TimelineFault::Move(MoveFault::Ended)),
        };
        match self.keeper.record(&mut self.cpu, &change, mark) {
            Ok(()) => {}
            Err(_) => return Err(TimelineFault::OutOfMemory),
        }
        Ok(change_replaces_bytes(&change))
    }

    /// Takes steps from a running machine and keeps each, the first one with a mark: until the
    /// machine has ended, a test holds of the last step, or `most` are taken, at least one. Where
    /// the keeper refuses a step the run is cut short before it.
    pub fn run<T: StopTest>(&mut self, most: u64, test: &T) -> Run
        requires runs { has_ended self.old.state.status ≡ false }
        requires some { 1 ≤ most }
        ensures { RunsOn (grown_by K.refused K.room history_after)
            (StandsAt K.holds self.old) (StandsAt K.holds self.new)
            (T.test test.now) most self.old self.new result }
    {
        self.keeper.run(&mut self.cpu, most, test)
    }

    /// Takes common steps, at most so many, and keeps each without a mark: as many as the keeper
    /// takes in one go, maybe none, or those up to one that leads to a slot that `marks` has, by the
    /// slot's remainder. Answers how many.
    pub(crate) fn repeat(&mut self, most: u64, marks: &[bool; 8192]) -> u64
        ensures { GoesOn (grown_by K.refused K.room history_on)
            (StandsAt K.holds self.old) (StandsAt K.holds self.new)
            most self.old self.new result }
    {
        self.keeper.repeat(&mut self.cpu, most, marks)
    }

    /// Makes an edit and keeps it. Nothing changes where the edit is refused; where the keeper
    /// refuses, it is taken back.
    pub fn edit(&mut self, edit: &Edit, mark: bool) -> Result<(), TimelineFault>
        ensures ok { OnOk result
            (Makes K.holds (K.room self.old.keeper) (move_of.Edit edit.now)
            mark self.old self.new) }
        ensures err { IfErr result (Fails K.holds (move_of.Edit edit.now) self.old self.new) }
        ensures refused { K.refused self.new.keeper
            ≡ refusals_by result (K.refused self.old.keeper) }
        ensures room { K.room self.new.keeper ≡ K.room self.old.keeper }
    {
        self.cpu.invariant();
        let entry = match self.cpu.edit(edit) {
            Ok(entry) => entry,
            Err(fault) => return Err(TimelineFault::Move(MoveFault::Edit(fault))),
        };
        edit_fits(&entry);
        match self.keeper.push(&entry, mark) {
            Ok(()) => Ok(()),
            Err(_) => {
                self.cpu.revert(&entry);
                Err(TimelineFault::OutOfMemory)
            }
        }
    }

    /// Makes a move and keeps it. Nothing changes where the move can't be made, or where the keeper
    /// refuses.
    pub fn make(&mut self, change: &Move, mark: bool) -> Result<(), TimelineFault>
        ensures ok { OnOk result
            (Makes K.holds (K.room self.old.keeper) change.now mark self.old self.new) }
        ensures err { IfErr result (Fails K.holds change.now self.old self.new) }
        ensures refused { K.refused self.new.keeper
            ≡ refusals_by result (K.refused self.old.keeper) }
        ensures room { K.room self.new.keeper ≡ K.room self.old.keeper }
    {
        match change {
            Move::Step => match self.step(mark) {
                Ok(_) => Ok(()),
                Err(fault) => Err(fault),
            },
            Move::Edit(edit) => self.edit(edit, mark),
        }
    }

    /// Goes back by one move, to the state before it. Answers what move it was, None where none is
    /// kept.
    #[inline(always)]
    pub fn back(&mut self) -> Option<Taken>
        ensures back { (h : List Record) → StandsFor K.holds self.old.keeper self.old.state h →
            GoesBack K.holds result h self.old self.new }
        ensures refused { K.refused self.new.keeper ≡ K.refused self.old.keeper }
        ensures room { K.room self.new.keeper ≡ K.room self.old.keeper }
    {
        self.keeper.take_back(&mut self.cpu)
    }

    /// Takes the newest move back where it is a step, and moves its entry with its mark to this
    /// ring. None where no move is kept, or an edit is the newest, and then nothing changes.
    #[inline(always)]
    pub(crate) fn hand_back(&mut self, ring: &mut RingKeeper) -> Option<Taken>
        ensures { HandsOver (known_by K.holds K.refused K.room) result
            self.old self.new ring.old ring.new }
    {
        self.keeper.hand_back(&mut self.cpu, ring)
    }

    /// Takes the newest moves back, at most so many, as many as the keeper takes in one go, each a
    /// step whose entry has no mark, and moves their entries to this ring. It stops in front of a
    /// move from a slot that `marks` has, by the slot's remainder, and in front of one that changed
    /// what `stays` names. Answers how many, maybe none.
    pub(crate) fn hand_back_steps(
        &mut self,
        ring: &mut RingKeeper,
        most: u64,
        marks: &[bool; 8192],
        stays: Stays,
    ) -> u64
        ensures within { result ≤ most }
        ensures handed { (h : List Record) (ls : List Kept) →
            StandsFor K.holds self.old.keeper self.old.state h →
            HandsBack marks.now stays self.new.state (K.holds self.new.keeper)
            (λ ms. RingHolds ring.old ls → RingHolds ring.new ms)
            result (map made_of h) ls self.old.state }
        ensures ring_size { ring_room ring.new ≡ ring_room ring.old }
        ensures stays { (K.refused self.new.keeper ≡ K.refused self.old.keeper)
            × (K.room self.new.keeper ≡ K.room self.old.keeper) }
    {
        self.keeper
            .hand_back_steps(&mut self.cpu, ring, most, marks, stays)
    }
}

/// The latest change of a byte among the entries that a keeper holds, which lead to this depth of
/// calls and this value.
fn change_among<K: Keeper>(keeper: &K, depth: u32, address: u64, value: u8) -> Option<ByteChange>
    requires some { HoldsSome K.holds keeper.now }
    requires shallow { depth < frame_count }
    ensures { (es : List Kept) → K.holds keeper.now es → result ≡ change_in address depth value es }
{
    keeper.invariant();
    let mut deep = depth;
    let mut at = keeper.end();
    let mut k = 0;
    let len = keeper.len();
    while k < len {
        let passed = keeper.pass_over(at, deep, address, value);
        k += passed.count;
        at = passed.place;
        deep = passed.depth;
        if k >= len {
            return None;
        }
        let Some((old, outer, older)) = keeper.byte_before(at, deep, address, value) else {
            return None;
        };
        if old != value {
            return Some(ByteChange {
                moves: k as u64 + 1,
                old,
                new: value,
            });
        }
        deep = outer;
        at = older;
        k += 1;
    }
    None
}
