//! Which machine gdb takes this one for.
ghost use Rattle.std.specs.Prelude.{◌≡◌, ◌≤◌};
ghost use Rattle.bpf_remote.specs.Layouts.{described, described_again, has_moves};

use crate::description::{RISCV_XML, X86_XML};

/// Which machine gdb takes this one for. Few gdbs know BPF, so they are told of a machine that they
/// know, with r0 to r10 where debug information for BPF looks for them, and once more under their
/// own names where that machine has other ones.
#[derive(Clone, Copy)]
pub enum Layout {
    /// One for BPF.
    Bpf,
    /// x86-64: rax, rdx, rcx, rbx, rsi, rdi, rbp, rsp, r8, r9, r10.
    X86,
    /// RISC-V of 64 bits: x0 to x10.
    Riscv,
}

/// The description of the machine, as gdb reads it; none where gdb knows the machine.
#[tactic(auto, unfolding(crate::specs::Layouts::described))]
pub(crate) fn described(layout: Layout) -> &'static str
    ensures { result.now ≡ described layout }
{
    match layout {
        Layout::Bpf => "",
        Layout::X86 => X86_XML,
        Layout::Riscv => RISCV_XML,
    }
}

/// How many registers gdb is told of once more.
pub(crate) fn described_again(layout: Layout) -> u8
    ensures value { result ≡ described_again layout }
    ensures few { result ≤ 11 }
{
    match layout {
        Layout::Bpf => 0,
        Layout::X86 => 8,
        Layout::Riscv => 11,
    }
}

/// Whether gdb is told of a register that says how many moves lie before the state.
pub(crate) fn has_moves(layout: Layout) -> bool
    ensures { result ≡ has_moves layout }
{
    !matches!(layout, Layout::Bpf)
}
