//! Machines that gdb may take this one for.
ghost use Rattle.std.specs.Prelude.{◌≡◌, IfNone, IfSome};
ghost use Rattle.bpfdb_options.specs.Registers.{registers_name};

/// The machine that gdb takes this one for.
#[derive(Clone, Copy)]
pub enum Registers {
    /// One for BPF.
    Bpf,
    /// x86-64.
    X86,
    /// RISC-V of 64 bits.
    Riscv,
}

impl Registers {
    /// The machine of this name.
    pub fn named(name: &str) -> Option<Registers>
        ensures found { IfSome result (λ registers. registers_name registers ≡ name.now) }
        ensures none { IfNone result ((registers : Registers) →
            registers_name registers ≡ name.now → ⊥) }
    {
        match name {
            "bpf" => Some(Registers::Bpf),
            "x86" => Some(Registers::X86),
            "riscv" => Some(Registers::Riscv),
            _ => None,
        }
    }
}
