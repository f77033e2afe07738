//! What is looked for: how a function came to one of its slots.
ghost use Rattle.std.specs.Prelude.{◌≡◌};
ghost use Rattle.bpf_whynot.specs.Branches as spec;

use bpf_machine::Cpu;

/// A slot that was come to, and the depth of calls of the function that came to it.
#[derive(Clone, Copy)]
pub struct Aim {
    pub depth: usize,
    pub slot: usize,
}

impl Aim {
    /// Where a machine stands.
    pub fn of(cpu: &Cpu) -> Aim
        ensures { result ≡ spec.aim_at cpu.now }
    {
        Aim {
            depth: cpu.depth(),
            slot: usize::from(cpu.pc()),
        }
    }
}
