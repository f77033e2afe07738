//! The registers by the numbers that gdb has for them.
ghost use Rattle.std.specs.Prelude.{◌≡◌, ◌≤◌, ◌-◌, if◌then◌else◌, nat_le};
ghost use Rattle.bpf_agent.specs.Registers.{value_of};

use bpf_isa::Reg;
use bpf_machine::Cpu;

/// The value of a register by gdb's number: 0 to 10 are r0 to r10, 11 is pc, which counts bytes, and
/// 12 to 22 are r0 to r10 once more.
pub fn value_of(cpu: &Cpu, n: u8) -> u64
    requires { n ≤ 22 }
    ensures { result ≡ value_of cpu.now n }
{
    match Reg::new(register_of(n)) {
        Some(register) => cpu.reg(register),
        None => 8 * u64::from(cpu.pc()),
    }
}

/// The register of a number, 11 where it is pc.
fn register_of(n: u8) -> u8
    requires { n ≤ 22 }
    ensures { result ≡ (if nat_le n 11 then n else n - 12) }
{
    if n <= 11 { n } else { n - 12 }
}
