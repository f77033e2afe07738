//! Watches: the addresses of bytes at whose change forward commands stop.
ghost use Rattle.std.specs.Prelude.{◌≡◌, ◌<◌, ◌≤◌, ◌↔◌, ℕ, if◌then◌else◌, ◌++◌, ◌∷◌, [], IsTrue, false, length, filter, not, nat_le, ◌==◌};
ghost use Rattle.std.specs.Str.{bytes_eq};
ghost use Rattle.bpf_steps.specs.ByAddress.{byte};
ghost use Rattle.bpf_steps.specs.State.{State};
ghost use Rattle.bpf_session.specs.Limits.{most_watches};
ghost use Rattle.bpf_session.specs.Stops.{has};
ghost use Rattle.bpf_session.specs.Watched.{Compares, Guards, LeavesWatched, bytes_at};

mod run;
mod sight;

use arrayvec::ArrayVec;
use bpf_machine::{Cpu, Guard};
use bpf_ring::Stays;
pub use run::Run;
pub use sight::Sight;
use std::marker::Model;

/// The most watches.
pub const MOST_WATCHES: usize = 4;

/// At most 4 addresses, in order of setting, no two alike.
#[derive(Drop)]
pub struct Watches {
    addresses: ArrayVec<u64, MOST_WATCHES>,
}

impl Model for Watches {
    ghost use Rattle.std.specs.Prelude.{ℕ, List};

    ghost Value = { List ℕ };

    ghost view = { λ w. w.addresses.items };
}

impl Watches {
    /// None.
    pub fn new() -> Watches
        ensures { result ≡ [] }
    {
        Watches {
            addresses: ArrayVec::new(),
        }
    }

    /// In order of setting.
    pub fn as_slice(&self) -> &[u64]
        ensures { result.now ≡ self.now }
    {
        self.addresses.as_slice()
    }

    /// Whether there are as many as there can be.
    pub fn is_full(&self) -> bool
        ensures { result ≡ nat_le most_watches (length self.now) }
    {
        self.addresses.is_full()
    }

    /// Whether there are none.
    pub fn is_empty(&self) -> bool
        ensures { IsTrue result ↔ (self.now ≡ []) }
    {
        self.addresses.is_empty()
    }

    /// Whether there is one at an address.
    pub fn has(&self, address: u64) -> bool
        ensures { result ≡ has self.now address }
    {
        self.addresses.iter().any(|other| *other == address)
    }

    /// Sets one at an address.
    pub fn set(&mut self, address: u64)
        requires { length self.old < most_watches }
        ensures { self.new ≡ self.old ++ address ∷ [] }
    {
        self.addresses.push(address);
    }

    /// Removes the one at an address.
    pub fn remove(&mut self, address: u64)
        ensures { self.new ≡ filter (λ other. not (other == address)) self.old }
    {
        self.addresses.retain(|other| *other != address);
    }

    /// The bytes at the addresses, now.
    pub fn bytes(&self, cpu: &Cpu) -> Seen
        ensures { result ≡ bytes_at self.now cpu.now }
    {
        Seen {
            bytes: bytes_of(self.addresses.as_slice(), cpu),
        }
    }

    /// Sees the bytes anew after a comparison where they differ.
    pub fn see_anew(&self, cpu: &Cpu, seen: &mut Seen, differs: bool)
        ensures { seen.new ≡ (if differs then bytes_at self.now cpu.now else seen.old) }
    {
        if differs {
            *seen = self.bytes(cpu);
        }
    }

    /// Whether the bytes at the addresses are not those that were seen.
    pub fn differ_from(&self, cpu: &Cpu, seen: &Seen) -> bool
        ensures { result ≡ not (bytes_eq (bytes_at self.now cpu.now) seen.now) }
    {
        let bytes = self.bytes(cpu);
        !bytes.is_same(seen)
    }

    /// What moves have left as it was that changed none of the bytes.
    pub(crate) fn stays(&self) -> Stays
        ensures { LeavesWatched self.now result }
    {
        if self.is_empty() {
            Stays::Nothing
        } else {
            Stays::Bytes(self.guard())
        }
    }

    /// Those from the lowest to the highest address, of which a store may change one.
    pub(crate) fn guard(&self) -> Guard
        ensures { Guards result self.now }
    {
        guard_of(self.addresses.as_slice())
    }

    /// Whether a byte at one of the addresses differs now from what was seen before a move that
    /// replaced bytes or not.
    pub fn differ(&self, cpu: &Cpu, seen: &Seen, replaced: bool) -> bool
        ensures { (x : State) → seen.now ≡ bytes_at self.now x →
            (replaced ≡ false → (address : ℕ) → byte x address ≡ byte cpu.now address) →
            Compares self.now seen.now x cpu.now result }
    {
        if !replaced {
            return false;
        }
        let bytes = self.bytes(cpu);
        !bytes.is_same(seen)
    }
}

/// What was seen of the watched bytes.
#[derive(Drop)]
pub struct Seen {
    bytes: ArrayVec<u8, MOST_WATCHES>,
}

impl Model for Seen {
    ghost use Rattle.std.specs.Prelude.{ℕ, List};

    ghost Value = { List ℕ };

    ghost view = { λ s. s.bytes.items };
}

impl Seen {
    /// Whether they are the same bytes.
    fn is_same(&self, other: &Seen) -> bool
        ensures { result ≡ bytes_eq self.now other.now }
    {
        self.bytes.as_slice() == other.bytes.as_slice()
    }
}

/// From the lowest to the highest of some addresses.
fn guard_of(addresses: &[u64]) -> Guard
    ensures { Guards result addresses.now }
{
    let mut first = u64::MAX;
    let mut last = 0;
    for address in addresses {
        first = first.min(*address);
        last = last.max(*address);
    }
    Guard { first, last }
}

/// The bytes at some addresses.
fn bytes_of(addresses: &[u64], cpu: &Cpu) -> ArrayVec<u8, MOST_WATCHES>
    requires { length addresses.now ≤ most_watches }
    ensures { result.items ≡ bytes_at addresses.now cpu.now }
{
    let mut bytes = ArrayVec::new();
    for address in addresses {
        bytes.push(byte_at(cpu, *address));
    }
    bytes
}

/// The byte at an address, 0 where there is none.
pub fn byte_at(cpu: &Cpu, address: u64) -> u8
    ensures { result ≡ byte cpu.now address }
{
    match cpu.peek(address, 1) {
        Some(run) => run[0],
        None => 0,
    }
}
