//! Sights: what was seen of the watched bytes at one time.
ghost use Rattle.std.specs.Prelude.{◌≡◌, ◌≤◌, length};
ghost use Rattle.bpf_session.specs.Limits.{most_watches};
ghost use Rattle.bpf_session.specs.WatchRuns.{first_changed, seen_at};

use super::{MOST_WATCHES, Watches, byte_at};
use arrayvec::ArrayVec;
use bpf_machine::Cpu;
use std::marker::Model;

/// The address and the value of each watched byte, in order of setting, as they were at one time.
#[derive(Drop)]
pub struct Sight {
    bytes: ArrayVec<(u64, u8), MOST_WATCHES>,
}

impl Model for Sight {
    ghost use Rattle.std.specs.Prelude.{ℕ, List};

    ghost Value = { List (ℕ × ℕ) };

    ghost view = { λ s. s.bytes.items };
}

impl Sight {
    /// The first of the addresses at which the byte is another one now.
    pub fn first_changed(&self, cpu: &Cpu) -> Option<u64>
        ensures { result ≡ first_changed self.now cpu.now }
    {
        for seen in self.bytes.as_slice() {
            let (address, byte) = *seen;
            if byte != byte_at(cpu, address) {
                return Some(address);
            }
        }
        None
    }
}

impl Watches {
    /// What is seen of the watched bytes now.
    pub(crate) fn sight(&self, cpu: &Cpu) -> Sight
        ensures { result ≡ seen_at self.now cpu.now }
    {
        Sight {
            bytes: seen_at(self.addresses.as_slice(), cpu),
        }
    }
}

/// What is seen at some addresses.
fn seen_at(addresses: &[u64], cpu: &Cpu) -> ArrayVec<(u64, u8), MOST_WATCHES>
    requires { length addresses.now ≤ most_watches }
    ensures { result.items ≡ seen_at addresses.now cpu.now }
{
    let mut seen = ArrayVec::new();
    for address in addresses {
        seen.push((*address, byte_at(cpu, *address)));
    }
    seen
}
