//! What goes back over the moves that led to a machine's state.
ghost use Rattle.std.specs.Prelude.{◌≡◌, ℕ, IfSome, length, map, true, false};
ghost use Rattle.bpf_entries.specs.Status.{has_ended};
ghost use Rattle.bpf_journal.specs.Histories.{StandsFor, kept_of, newest};
ghost use Rattle.bpf_journal.specs.Tracks.{Follows, Track};
ghost use Rattle.bpf_steps.specs.State.{State, depth};
ghost use Rattle.bpf_ring.specs.Touched.{newest_touched};
ghost use Rattle.bpf_origin.specs.Pasts.{GoesBack, IsSameKeeper};

use bpf_journal::{Course, Keeper, Taken, Timeline, Touched};
use bpf_machine::{Cpu, Entry};

/// A machine with the moves that led to its state, over which it can go back: a timeline, which
/// drops what it takes back, or a course, which can make it again.
pub trait Past {
    /// The machine's state.
    ghost state: { Self → State };

    /// Whether it stands for a history, and for what was taken back from that. Of a timeline
    /// anything may have been.
    ghost follows: { Self → Track → Type 0 };

    /// The journal's size in bytes.
    ghost room: { Self → ℕ };

    /// How many pushes the keeper of the moves has refused.
    ghost refused: { Self → ℕ };

    /// The machine.
    fn machine(&self) -> &Cpu
        ensures { result.now ≡ state self.now };

    /// How many moves are kept.
    fn moves(&self) -> usize
        ensures { (t : Track) → follows self.now t → result ≡ length t.history };

    /// The entry of the newest move that is kept, and its mark; None where none is kept. It stays.
    fn newest(&self) -> Option<(Entry, bool)>
        ensures { (t : Track) → follows self.now t → result ≡ newest (map kept_of t.history) };

    /// What the newest move that is kept touched; None where none is kept.
    fn touched(&self) -> Option<Touched>
        ensures { (t : Track) → follows self.now t →
            result ≡ newest_touched (depth (state self.now)) (map kept_of t.history) };

    /// Goes back by one move, to the state before it. Answers what move it was, None where none is
    /// kept. The machine runs before a step.
    fn take_back(&mut self) -> Option<Taken>
        ensures back { (t : Track) → follows self.old t →
            GoesBack state follows result t.history t.ahead self.old self.new }
        ensures runs { IfSome result (λ taken. taken.is_step ≡ true →
            has_ended (state self.new).status ≡ false) }
        ensures keeper { IsSameKeeper room refused self.old self.new };
}

impl<K: Keeper> Past for Timeline<K> {
    ghost state = { λ t. t.state };

    ghost follows = { λ t track. StandsFor K.holds t.keeper t.state track.history };

    ghost room = { λ t. K.room t.keeper };

    ghost refused = { λ t. K.refused t.keeper };

    fn machine(&self) -> &Cpu {
        self.cpu()
    }

    fn moves(&self) -> usize {
        self.len()
    }

    fn newest(&self) -> Option<(Entry, bool)> {
        self.last()
    }

    #[inline(always)]
    fn touched(&self) -> Option<Touched> {
        let cpu = self.cpu();
        cpu.invariant();
        self.keeper().newest_touched(cpu.depth() as u32)
    }

    #[inline(always)]
    fn take_back(&mut self) -> Option<Taken> {
        self.invariant();
        self.back()
    }
}

impl<K: Keeper> Past for Course<K> {
    ghost state = { λ c. c.state };

    ghost follows = { λ c track. Follows K.holds c track };

    ghost room = { λ c. K.room c.keeper };

    ghost refused = { λ c. K.refused c.keeper };

    fn machine(&self) -> &Cpu {
        self.cpu()
    }

    fn moves(&self) -> usize {
        self.len()
    }

    fn newest(&self) -> Option<(Entry, bool)> {
        self.keeper().last()
    }

    #[inline(always)]
    fn touched(&self) -> Option<Touched> {
        let cpu = self.cpu();
        cpu.invariant();
        self.keeper().newest_touched(cpu.depth() as u32)
    }

    #[inline(always)]
    fn take_back(&mut self) -> Option<Taken> {
        self.invariant();
        self.back()
    }
}
