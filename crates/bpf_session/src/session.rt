//! Sessions: commands over a machine and the keeper of its moves.
ghost use Rattle.std.specs.Borrow.{sem};
ghost use Rattle.std.specs.Prelude.{◌≡◌, ◌≤◌, List, [], length};
ghost use Rattle.bpf_journal.specs.Histories.{HasHistory, Record, StandsFor};
ghost use Rattle.bpf_journal.specs.Tracks.{CanOpen, IsCourse, Track, track_of};
ghost use Rattle.bpfdb_script.specs.Limits.{greatest_count};
ghost use Rattle.bpf_session.specs.Accepted.{Accepts};
ghost use Rattle.bpf_session.specs.Lending.{LendsCourse};
ghost use Rattle.bpf_session.specs.Meaning.{accepted, does};
ghost use Rattle.bpf_session.specs.Points.{within};
ghost use Rattle.bpf_session.specs.Sessions.{HasPast, Obeys, bounds_of};

mod backward;
mod edits;
mod forward;
mod redo;
mod refusals;
mod replies;
mod runs;
mod stops;

use crate::breakpoints::Breakpoints;
use crate::reply::Reply;
use crate::watches::Watches;
use bpf_journal::{Course, Keeper, RingKeeper};
use bpf_machine::Cpu;
use bpfdb_script::{Command, Refusal};
use std::marker::Model;

/// A session of commands.
#[derive(Drop)]
pub struct Session<K: Keeper> {
    timeline: Course<K>,
    breaks: Breakpoints,
    watches: Watches,
    limit: u64,
}

impl<K: Keeper> Model for Session<K> {
    ghost use Rattle.std.specs.Prelude.{◌≤◌};
    ghost use Rattle.bpf_session.specs.Sessions.{SessionValue};

    ghost Value = { SessionValue K };

    ghost view = { λ s. record { moment = s.timeline; breaks = s.breaks; watches = s.watches; limit = s.limit } };

    ghost invariant = { λ s. 1 ≤ s.limit };
}

impl<K: Keeper> Session<K> {
    /// A session over a machine and a keeper that holds the entries of some history that led to the
    /// machine's state, with an empty ring of the keeper's capacity for the moves that will be
    /// taken back. `limit` is the most steps of a command, 1 to 1,000,000,000. There are no
    /// breakpoints and no watches.
    pub fn open(cpu: Cpu, keeper: K, redo: RingKeeper, limit: u64) -> Session<K>
        requires course { CanOpen K.holds K.room keeper cpu redo }
        requires limit { (1 ≤ limit) × (limit ≤ greatest_count) }
        ensures value { result ≡ record {
          moment = record {
            state = cpu;
            keeper = keeper;
            redo = redo;
          };
          breaks = [];
          watches = [];
          limit = limit;
        } }
        ensures stands { (h : List Record) → StandsFor K.holds keeper cpu h →
            HasPast K.holds result (track_of h) }
    {
        Session {
            timeline: Course::open(cpu, keeper, redo),
            breaks: Breakpoints::new(),
            watches: Watches::new(),
            limit,
        }
    }

    /// Gives the machine and the keeper back as they stand: `open` takes them again. What was taken
    /// back is dropped.
    pub fn close(self) -> (Cpu, K)
        ensures same { result ≡ (self.moment.state, self.moment.keeper) }
        ensures past { HasHistory K.holds result.1 result.0 }
    {
        let Session {
            timeline,
            breaks: _,
            watches: _,
            limit: _,
        } = self;
        timeline.close()
    }

    /// The machine.
    pub fn cpu(&self) -> &Cpu
        ensures { result.now ≡ self.now.moment.state }
    {
        self.timeline.cpu()
    }

    /// The keeper.
    pub fn keeper(&self) -> &K
        ensures { result.now ≡ self.now.moment.keeper }
    {
        self.timeline.keeper()
    }

    /// The machine with the moves that led to its state and those that were taken back, to be looked
    /// at or moved. Breakpoints, watches and the limit stay as they are.
    pub fn course_mut(&mut self) -> &mut Course<K>
        ensures* writes_back { sem 𝓛 (LendsCourse K.row K.Keeper self.entry result) }
        ensures value { result.now ≡ self.old.moment }
    {
        &mut self.timeline
    }

    /// The most steps of a command.
    pub fn limit(&self) -> u64
        ensures { result ≡ self.now.limit }
    {
        self.limit
    }

    /// How many moves are kept.
    pub fn kept(&self) -> usize
        ensures { (t : Track) → HasPast K.holds self.now t → result ≡ length t.history }
    {
        self.timeline.len()
    }

    /// Brings into a proof that there is a history, and what was taken back from it.
    pub fn invariant(&self)
        ensures { IsCourse K.holds K.room self.now.moment }
    {
        self.timeline.invariant();
    }

    /// Obeys a command, or refuses it, and then nothing changes. `quit` changes nothing.
    pub fn apply(&mut self, command: &Command) -> Result<Reply, Refusal>
        ensures { Obeys K.holds K.refused K.room self.old self.new
            (λ gap. does gap (bounds_of K.room self.old) command.now) result }
    {
        self.invariant();
        match self.refusal(command) {
            Some(refusal) => Err(refusal),
            None => self.accept(command),
        }
    }

    /// Obeys a command, or refuses it, as `apply` does, with so many steps at the most: 1 or more.
    pub fn apply_within(&mut self, command: &Command, most: u64) -> Result<Reply, Refusal>
        requires { 1 ≤ most }
        ensures { Obeys K.holds K.refused K.room self.old self.new
            (λ gap. does gap (within most (bounds_of K.room self.old)) command.now) result }
    {
        let limit = self.limit;
        self.limit = limit.min(most);
        let answer = self.apply(command);
        self.limit = limit;
        answer
    }

    /// Obeys a command that is not refused, but where memory for its first move is.
    #[tactic(auto, unfolding(crate::specs::Meaning::accepted))]
    fn accept(&mut self, command: &Command) -> Result<Reply, Refusal>
        requires { Accepts K.holds self.old command.now }
        ensures { Obeys K.holds K.refused K.room self.old self.new
            (λ gap. accepted gap (bounds_of K.room self.old) command.now) result }
    {
        self.invariant();
        match command {
            Command::Forward(goal) => self.forward(*goal),
            Command::Back(target) => Ok(self.back(*target)),
            Command::Redo(count) => self.redo(*count),
            Command::Edit(edit) => self.edit(edit),
            Command::Add(stop) => Ok(self.add(*stop)),
            Command::Remove(stop) => Ok(self.remove(*stop)),
            Command::Show(view) => Ok(Reply::Shown(*view)),
            Command::Quit => Ok(Reply::Nothing),
        }
    }
}
