//! A run of common steps, which are kept a piece at a time: the machine writes their entries one
//! behind the other, the fewest oldest ones that make room for all of them are dropped, and they are
//! appended by one write.
ghost use Rattle.std.specs.Prelude.{◌≡◌, ◌≤◌, ◌<◌, ◌+◌, ◌-◌, ◌++◌, List, length, true, false};
ghost use Rattle.bpf_entries.specs.Keeping.{Kept};
ghost use Rattle.bpf_entries.specs.Rings.{AllFit, ring as ring_of};
ghost use Rattle.bpf_entries.specs.Status.{has_ended};
ghost use Rattle.bpf_steps.specs.State.{State};
ghost use Rattle.bpf_ring.specs.Moments.{beside};
ghost use Rattle.bpf_ring.specs.Grown.{KeepsSteps};
ghost use Rattle.bpf_ring.specs.Edges.{HoldsAs, IsRagged};
ghost use Rattle.bpf_ring.specs.Held.{RingHolds};
ghost use Rattle.bpf_ring.specs.Left.{Left};
ghost use Rattle.bpf_ring.specs.Pieces.{KeepsPiece, RunsByPieces, entries_of};
ghost use Rattle.bpf_ring.specs.Runs.{GoesOn, kept_on};

use crate::keeper::RingKeeper;
use crate::run::StopTest;
use bpf_machine::laws::entries_fit;
use bpf_machine::{Cpu, Guard};

/// The most steps of a piece.
const STEPS: u64 = 128;

/// The most bytes that their entries have.
pub(crate) const BYTES: usize = 4_096;

/// Those of a piece of steps that are repeated, of which few come at once.
const FEW: usize = 2_016;

/// The fewest bytes that a ring has beside a piece.
const SPARE: usize = 16;

/// How far a run came.
#[derive(Clone, Copy)]
pub(crate) struct Run {
    /// How many steps it has taken.
    pub(crate) taken: u64,
    /// Whether the ring is ragged then.
    pub(crate) is_ragged: bool,
}

/// How far a run came by pieces.
#[derive(Clone, Copy)]
pub(crate) struct Pieced {
    pub(crate) run: Run,
    /// Whether it is over.
    pub(crate) is_over: bool,
}

/// A piece that was kept.
#[derive(Clone, Copy)]
pub(crate) struct Piece {
    /// How many steps it has.
    pub(crate) count: u64,
    /// Whether a single step has to take the next one.
    is_rare: bool,
}

impl Piece {
    /// Whether no other piece is begun behind it.
    #[inline(always)]
    fn ends(&self) -> bool
        ensures { result ≡ false → 1 ≤ self.now.count }
    {
        self.is_rare || self.count == 0
    }
}

impl RingKeeper {
    /// Goes on with a run that has taken some steps, piece by piece: until it is over, or until a
    /// step comes that is none of the common ones. Once the run has filled the ring, it drops no
    /// more entries: the oldest bytes are written over, whatever they are.
    pub(crate) fn run_pieces<T: StopTest>(
        &mut self,
        cpu: &mut Cpu,
        run: Run,
        most: u64,
        test: &T,
        room: &mut [u8],
    ) -> Pieced
        requires goes { GoesOn cpu.old run.taken }
        requires most { run.taken ≤ most }
        requires room { length room.old ≡ 4096 }
        ensures pieces { RunsByPieces (T.test test.now) most run (beside cpu.old self.old)
            (beside cpu.new self.new) result }
        ensures room { length room.new ≡ 4096 }
    {
        let mut taken = run.taken;
        let mut is_ragged = run.is_ragged;
        while taken < most {
            is_ragged = self.gets_ragged(is_ragged, taken);
            let left = (most - taken).min(STEPS);
            let piece = self.keep_piece(cpu, left, test, room, is_ragged);
            taken += piece.count;
            if is_last(cpu, test, piece.count) {
                return Pieced {
                    run: Run { taken, is_ragged },
                    is_over: true,
                };
            }
            if piece.ends() {
                return Pieced {
                    run: Run { taken, is_ragged },
                    is_over: taken == most,
                };
            }
        }
        Pieced {
            run: Run { taken, is_ragged },
            is_over: true,
        }
    }

    /// Takes a piece of common steps, at most so many, and keeps them.
    fn keep_piece<T: StopTest>(
        &mut self,
        cpu: &mut Cpu,
        most: u64,
        test: &T,
        room: &mut [u8],
        is_ragged: bool,
    ) -> Piece
        requires runs { has_ended cpu.old.status ≡ false }
        requires few { most ≤ 128 }
        ensures piece { KeepsPiece (T.test test.now) most is_ragged (beside cpu.old self.old)
            (beside cpu.new self.new) result.count }
        ensures room { length room.new ≡ length room.old }
    {
        entries_fit();
        self.invariant();
        let Some(guard) = test.guard(cpu) else {
            return Piece {
                count: 0,
                is_rare: true,
            };
        };
        let size = (self.ring.size() - SPARE).min(room.len());
        let kept = cpu.keep(
            most,
            test.marks(),
            guard,
            test.overlooks_calls(),
            &mut room[..size],
        );
        self.keep_texts(&room[..kept.len], kept.taken as usize, is_ragged);
        Piece {
            count: kept.taken,
            is_rare: kept.is_rare,
        }
    }

    /// Keeps the entries of so many steps, without marks, whose texts these are.
    #[inline(always)]
    fn keep_texts(&mut self, text: &[u8], count: usize, is_ragged: bool)
        requires room { length text.now + 16 ≤ self.old.ring.size }
        requires few { count ≤ 128 }
        ensures size { self.new.ring.size ≡ self.old.ring.size }
        ensures held { (ks : List Kept) (x : State) → HoldsAs is_ragged self.old ks →
            AllFit (entries_of count x) → text.now ≡ ring_of (entries_of count x) →
            HoldsAs is_ragged self.new (kept_on self.old.ring.size count x ks) }
    {
        if is_ragged {
            self.write_over(text, count);
        } else {
            self.push_steps(text, count);
        }
    }

    /// Keeps them in a ragged ring: they are written over the oldest bytes.
    fn write_over(&mut self, text: &[u8], count: usize)
        requires { length text.now ≤ self.old.ring.size }
        ensures size { self.new.ring.size ≡ self.old.ring.size }
        ensures held { (ks : List Kept) (x : State) → IsRagged self.old.ring self.old.counts ks →
            AllFit (entries_of count x) → text.now ≡ ring_of (entries_of count x) →
            IsRagged self.new.ring self.new.counts (kept_on self.old.ring.size count x ks) }
    {
        let _count = count;
        self.make_way(text.len());
        self.ring.push(text);
    }

    /// Keeps them behind the entries that leave room for them.
    fn push_steps(&mut self, text: &[u8], count: usize)
        requires room { length text.now + 16 ≤ self.old.ring.size }
        requires few { count ≤ 128 }
        ensures size { self.new.ring.size ≡ self.old.ring.size }
        ensures held { (ks : List Kept) (x : State) → RingHolds self.old ks →
            AllFit (entries_of count x) → text.now ≡ ring_of (entries_of count x) →
            RingHolds self.new (kept_on self.old.ring.size count x ks) }
    {
        self.invariant();
        self.drop_in_place(text.len());
        self.make_room(text.len());
        self.append_steps(text, count);
    }

    /// Drops oldest entries, as far as the block has them in one piece and they are unmarked ones of
    /// steps, until there is room for so many bytes.
    #[inline(always)]
    fn drop_in_place(&mut self, room: usize)
        requires { room + 16 ≤ self.old.ring.size }
        ensures size { self.new.ring.size ≡ self.old.ring.size }
        ensures left { (ks : List Kept) → RingHolds self.old ks →
            Left self.new.ring self.new.counts (self.old.ring.size - room) ks }
    {
        self.invariant();
        let most = self.ring.size() - room;
        let entries = self.ring.drop_to(self.counts, most);
        self.counts = self.counts.with_entries(entries);
    }

    /// Takes common steps, at most so many and at most 128, and keeps each without a mark: up to one
    /// that is none of the common ones, or behind one that leads to a slot that `marks` has, by the
    /// slot's remainder. Answers how many, maybe none. It takes no memory.
    pub fn repeat(&mut self, cpu: &mut Cpu, most: u64, marks: &[bool; 8192]) -> u64
        ensures { KeepsSteps most cpu.old cpu.new self.old self.new result }
    {
        if cpu.status().has_ended() {
            return 0;
        }
        let mut room = [0u8; FEW];
        let piece = self.keep_piece(cpu, most.min(STEPS), &Unstopped { marks }, &mut room, false);
        piece.count
    }

    /// Appends the texts of the entries of so many steps, without marks, for which there must be
    /// room.
    fn append_steps(&mut self, text: &[u8], count: usize)
        requires room { length self.old.ring.bytes + length text.now ≤ self.old.ring.size }
        requires few { count ≤ 128 }
        ensures size { self.new.ring.size ≡ self.old.ring.size }
        ensures held { (ks : List Kept) (x : State) → RingHolds self.old ks →
            AllFit (entries_of count x) → text.now ≡ ring_of (entries_of count x) →
            RingHolds self.new (entries_of count x ++ ks) }
    {
        let _size = self.ring.size();
        self.ring.push(text);
        let entries = self.counts.entries.wrapping_add(count);
        self.counts = self.counts.with_entries(entries);
    }
}

/// What stops no run. The table ends pieces of it.
#[derive(Clone, Copy)]
struct Unstopped<'a> {
    marks: &'a [bool; 8192],
}

impl<'a> StopTest for Unstopped<'a> {
    ghost test = { λ u replaced y. false };

    #[inline(always)]
    fn holds(&self, cpu: &Cpu, replaced: bool) -> bool {
        let _cpu = cpu;
        let _replaced = replaced;
        false
    }

    #[inline(always)]
    fn marks(&self) -> &[bool; 8192] {
        self.marks
    }

    #[inline(always)]
    fn guard(&self, cpu: &Cpu) -> Option<Guard> {
        let _cpu = cpu;
        Some(Guard::none())
    }

    #[inline(always)]
    fn overlooks_calls(&self) -> bool {
        true
    }
}

/// Whether a piece of so many steps is the last one, by the state that it led to: the test holds.
#[inline(always)]
fn is_last<T: StopTest>(cpu: &Cpu, test: &T, count: u64) -> bool
    ensures holds { result ≡ true → (1 ≤ count) × (T.test test.now false cpu.now ≡ true) }
    ensures goes_on { result ≡ false → 1 ≤ count → T.test test.now false cpu.now ≡ false }
{
    if count == 0 {
        return false;
    }
    test.holds(cpu, false)
}
