//! Runs: bytes one after another that are watched together, each by a watch of its own.
ghost use Rattle.std.specs.Prelude.{◌≡◌, ◌<◌, ◌≤◌, ◌+◌, ◌^◌, ◌++◌, filter, length, nat_le, not, true};
ghost use Rattle.std.specs.List.{list_all, list_any};
ghost use Rattle.bpf_session.specs.Limits.{most_watches};
ghost use Rattle.bpf_session.specs.Stops.{has};
ghost use Rattle.bpf_session.specs.WatchRuns.{addresses, are_present, is_run, run_of};

use super::{MOST_WATCHES, Watches};
use arrayvec::ArrayVec;
use bpf_machine::Cpu;
use std::marker::Model;

/// The addresses of 1 to 4 bytes, one after another.
#[derive(Drop)]
pub struct Run {
    addresses: ArrayVec<u64, MOST_WATCHES>,
}

impl Model for Run {
    ghost use Rattle.std.specs.Prelude.{ℕ, List};

    ghost Value = { List ℕ };

    ghost view = { λ r. r.addresses.items };
}

impl Run {
    /// So many bytes from an address on. None where they are none or more than 4, or pass the last
    /// address.
    pub fn new(address: u64, count: u64) -> Option<Run>
        ensures { result ≡ run_of address count }
    {
        if is_run(address, count) {
            Some(Run {
                addresses: addresses_from(address, count),
            })
        } else {
            None
        }
    }

    /// Whether an address is among them.
    fn has(&self, address: u64) -> bool
        ensures { result ≡ has self.now address }
    {
        self.addresses.iter().any(|other| *other == address)
    }

    /// Whether each of the bytes is present.
    pub(crate) fn is_present(&self, cpu: &Cpu) -> bool
        ensures { result ≡ are_present cpu.now self.now }
    {
        self.addresses
            .iter()
            .all(|address| cpu.peek(*address, 1).is_some())
    }
}

/// Whether so many bytes from an address on are a run.
fn is_run(address: u64, count: u64) -> bool
    ensures { result ≡ is_run address count }
{
    1 <= count && count <= MOST_WATCHES as u64 && count <= u64::MAX - address
}

/// The addresses of so many bytes from one on.
#[tactic(auto, using(crate::proofs::WatchRuns::addresses_length, crate::proofs::WatchRuns::addresses_more))]
fn addresses_from(address: u64, count: u64) -> ArrayVec<u64, MOST_WATCHES>
    requires { is_run address count ≡ true }
    ensures { result.items ≡ addresses address count }
{
    let mut run = ArrayVec::new();
    for k in 0..count {
        run.push(address + k);
    }
    run
}

impl Watches {
    /// Whether there is room for those of a run.
    pub(crate) fn has_room(&self, run: &Run) -> bool
        ensures { result ≡ nat_le (length self.now + length run.now) most_watches }
    {
        self.addresses.len() + run.addresses.len() <= MOST_WATCHES
    }

    /// Whether there is one at some address of a run.
    pub(crate) fn has_some(&self, run: &Run) -> bool
        ensures { result ≡ list_any (has self.now) run.now }
    {
        run.addresses.iter().any(|address| self.has(*address))
    }

    /// Whether there is one at each address of a run.
    pub(crate) fn has_all(&self, run: &Run) -> bool
        ensures { result ≡ list_all (has self.now) run.now }
    {
        run.addresses.iter().all(|address| self.has(*address))
    }

    /// Sets those of a run.
    pub(crate) fn set_all(&mut self, run: &Run)
        requires { length self.old + length run.now ≤ most_watches }
        ensures { self.new ≡ self.old ++ run.now }
    {
        match self
            .addresses
            .try_extend_from_slice(run.addresses.as_slice())
        {
            Ok(()) => {}
            Err(_) => unreachable!(),
        }
    }

    /// Removes those of a run.
    pub(crate) fn remove_all(&mut self, run: &Run)
        ensures { self.new ≡ filter (λ a. not (has run.now a)) self.old }
    {
        self.addresses.retain(|other| !run.has(*other));
    }
}
