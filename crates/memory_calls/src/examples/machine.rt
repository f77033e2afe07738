//! A machine takes steps until it has ended, and can be changed by hand.
use bpf_isa::{MapTable, Reg, check};
use bpf_machine::{Cpu, Edit, Status};
use std::alloc::Global;

/// mov r0, 40; add r0, 2; stb [r10-8], 7; exit.
const WORDS: [u8; 32] = [
    0xb7, 0, 0, 0, 40, 0, 0, 0, 0x07, 0, 0, 0, 2, 0, 0, 0, 0x72, 0x0a, 0xf8, 0xff, 7, 0, 0, 0,
    0x95, 0, 0, 0, 0, 0, 0, 0,
];

/// The machine before its first step.
pub fn machine(alloc: Global) -> Option<Cpu> {
    let program = check(alloc, &WORDS, &MapTable::empty()).ok()?;
    Cpu::open(alloc, program, b"the context").ok()
}

/// Takes the first step, changes r0 by hand, and takes the other three. Answers r0 before the change
/// and at the end, if the program has ended then.
pub fn play(cpu: &mut Cpu) -> Option<(u64, u64)> {
    let register = Reg::new(0)?;
    cpu.advance().ok()?;
    let before = cpu.reg(register);
    let value = 50;
    cpu.edit(&Edit::Register { register, value }).ok()?;
    for _ in 0..3 {
        cpu.advance().ok()?;
    }
    match cpu.status() {
        Status::Exited => Some((before, cpu.reg(register))),
        _ => None,
    }
}
