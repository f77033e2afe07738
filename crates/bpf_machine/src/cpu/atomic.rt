//! What atomic operations do (RFC 9669, section 5.3).
ghost use Rattle.std.specs.Prelude.{◌≡◌, ◌+◌};
ghost use Rattle.bpf_isa.specs.Programs.{IsStart};
ghost use Rattle.bpf_steps.specs.Atomics as spec;

use super::Cpu;
use super::step::{fault, r0};
use bpf_isa::{Address, AtomicOp, Reg, Width};
use bpf_steps::Change;
use bpf_steps::alu::atomic::{combined, low, size_of};

impl Cpu {
    /// An atomic operation on the number at an address.
    pub(super) fn atomic(&self, op: AtomicOp, width: Width, to: Address, src: Reg) -> Change
        requires { IsStart self.now.program (self.now.pc + 1) }
        ensures { result ≡ spec.atomic self.now op width to src }
    {
        let address = self.address(to);
        let size = size_of(width);
        match self.access(address, size.len()) {
            Some(index) => {
                let old = self.memory.number(index, size);
                self.atomic_at(op, width, src, address, index, old)
            }
            None => fault(address),
        }
    }

    /// The change that an atomic instruction makes where the number stands at this index.
    fn atomic_at(
        &self,
        op: AtomicOp,
        width: Width,
        src: Reg,
        address: u64,
        index: usize,
        old: u64,
    ) -> Change
        requires { IsStart self.now.program (self.now.pc + 1) }
        ensures { result ≡ spec.atomic_at self.now op width src address index old }
    {
        let value = combined(op, width, old, low(width, self.reg(src)));
        match op {
            AtomicOp::CompareExchange => {
                if old == low(width, self.reg(r0())) {
                    self.fetch_to(r0(), width, address, index, value)
                } else {
                    self.set(r0(), old, 1)
                }
            }
            AtomicOp::Add | AtomicOp::Or | AtomicOp::And | AtomicOp::Xor => Change::Store {
                address,
                index,
                size: size_of(width),
                value,
                next: self.after(1),
            },
            _ => self.fetch_to(src, width, address, index, value),
        }
    }

    /// A number is stored, and a register gets the one that stood there.
    fn fetch_to(
        &self,
        register: Reg,
        width: Width,
        address: u64,
        index: usize,
        value: u64,
    ) -> Change
        requires { IsStart self.now.program (self.now.pc + 1) }
        ensures { result ≡ Change.Fetch address index (spec.size_of width) value register
            (self.now.pc + 1) }
    {
        Change::Fetch {
            address,
            index,
            size: size_of(width),
            value,
            register,
            next: self.after(1),
        }
    }
}
