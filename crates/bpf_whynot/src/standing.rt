//! Where a machine stands, by its slot.
ghost use Rattle.std.specs.Prelude.{◌≡◌};
ghost use Rattle.bpf_whynot.specs.Standings.{standing};

use bpf_machine::Cpu;

/// What is kept of a machine's state while the move is taken back that led to it.
#[derive(Clone, Copy)]
pub struct Standing {
    /// The slot.
    pub slot: usize,
    /// Whether it has ended.
    pub ended: bool,
}

impl Standing {
    /// Where a machine stands.
    pub fn of(cpu: &Cpu) -> Standing
        ensures { result ≡ standing cpu.now }
    {
        Standing {
            slot: usize::from(cpu.pc()),
            ended: cpu.status().has_ended(),
        }
    }
}
