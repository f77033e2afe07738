//! The ring of entries as a keeper: it keeps them as their bytes, in one block of the journal's size.
//! Each call hands on to the ring's own of the same name.
ghost use Rattle.std.specs.Prelude.{sum_by};
ghost use Rattle.bpf_entries.specs.Keeping.{kept_weight};

use crate::keeper::Keeper;
use crate::run::Run;
use crate::taken::Taken;
use bpf_machine::{Change, Cpu, Entry};
use bpf_ring::{PassedOver, RingKeeper, Stays, StopTest, Touched};
use std::alloc::AllocError;

impl Keeper for RingKeeper {
    ghost use Rattle.std.proofs.Common.{arith};
    ghost use Rattle.bpf_journal.specs.Handing.{RingHolds, ring_room};
    ghost use Rattle.bpf_journal.specs.Rings.{fronts_apart};

    ghost holds = { λ ring es. RingHolds ring es };

    ghost room = { λ ring. ring_room ring };

    ghost refused = { λ ring. 0 };

    ghost place = { λ ring front. sum_by kept_weight front };

    ghost counted = { λ ring. omega arith };

    ghost apart = { λ ring n m a b held same weigh. fronts_apart n m a b same weigh };

    fn invariant(&self) {
        self.invariant();
    }

    fn push(&mut self, entry: &Entry, mark: bool) -> Result<(), AllocError> {
        self.push(entry, mark);
        Ok(())
    }

    #[inline(always)]
    fn record(&mut self, cpu: &mut Cpu, change: &Change, mark: bool) -> Result<(), AllocError> {
        self.record(cpu, change, mark);
        Ok(())
    }

    fn run<T: StopTest>(&mut self, cpu: &mut Cpu, most: u64, test: &T) -> Run {
        Run {
            steps: self.run(cpu, most, test),
            is_cut: false,
        }
    }

    fn repeat(&mut self, cpu: &mut Cpu, most: u64, marks: &[bool; 8192]) -> u64 {
        self.repeat(cpu, most, marks)
    }

    fn refusals(&self) -> u64 {
        0
    }

    #[inline(always)]
    fn take_back(&mut self, cpu: &mut Cpu) -> Option<Taken> {
        match self.take_back(cpu) {
            Some(tag) => Some(Taken::of_tag(tag)),
            None => None,
        }
    }

    #[inline(always)]
    fn hand_back(&mut self, cpu: &mut Cpu, ring: &mut RingKeeper) -> Option<Taken> {
        match self.hand_back(cpu, ring) {
            Some(tag) => Some(Taken::of_tag(tag)),
            None => None,
        }
    }

    fn hand_back_steps(
        &mut self,
        cpu: &mut Cpu,
        ring: &mut RingKeeper,
        most: u64,
        marks: &[bool; 8192],
        stays: Stays,
    ) -> u64 {
        self.hand_back_steps(cpu, ring, most, marks, stays)
    }

    fn last(&self) -> Option<(Entry, bool)> {
        self.last()
    }

    #[inline(always)]
    fn newest_touched(&self, depth: u32) -> Option<Touched> {
        self.newest_touched(depth)
    }

    fn pop(&mut self) -> Option<(Entry, bool)> {
        self.pop()
    }

    fn len(&self) -> usize {
        self.len()
    }

    fn marked(&self) -> usize {
        self.marked()
    }

    fn steps(&self) -> usize {
        self.steps()
    }

    fn weight(&self) -> usize {
        self.weight()
    }

    fn capacity(&self) -> usize {
        self.capacity()
    }

    fn end(&self) -> usize {
        self.end()
    }

    fn walk_back(&self, at: usize) -> Option<(Entry, bool, usize)> {
        self.walk_back(at)
    }

    #[inline(always)]
    fn pass_over(&self, at: usize, depth: u32, address: u64, value: u8) -> PassedOver {
        self.pass_over(at, depth, address, value)
    }

    fn byte_before(
        &self,
        at: usize,
        depth: u32,
        address: u64,
        after: u8,
    ) -> Option<(u8, u32, usize)> {
        self.byte_before(at, depth, address, after)
    }
}
