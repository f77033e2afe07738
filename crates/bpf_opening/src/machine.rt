//! Machines that are opened.
ghost use Rattle.std.specs.Prelude.{◌≡◌, ◌<◌, IfErr, IfOk, OnErr, OnOk, slice_set};
ghost use Rattle.bpf_steps.specs.Opening.{Refused};
ghost use Rattle.bpf_opening.specs.Openings.{Opens, with_opening, with_value};

use crate::opening::{Opening, REGISTERS};
use bpf_isa::{Program, Reg};
use bpf_machine::{Cpu, Edit, OpenFault};
use std::alloc::Global;

/// A machine before its first step, on a program, a context and what is asked.
pub fn open(
    alloc: Global,
    program: Program,
    context: &[u8],
    opening: &Opening,
) -> Result<Cpu, OpenFault>
    ensures ok { IfOk result (Opens opening.now program context.now) }
    ensures err { IfErr result (Refused context.now) }
{
    let mut cpu = match Cpu::open(alloc, program, context) {
        Ok(cpu) => cpu,
        Err(fault) => return Err(fault),
    };
    put(&mut cpu, opening);
    Ok(cpu)
}

/// Opens a machine again on its program, with a context and what is asked. One that isn't opened stays as
/// it was.
pub fn reopen(
    alloc: Global,
    cpu: &mut Cpu,
    context: &[u8],
    opening: &Opening,
) -> Result<(), OpenFault>
    ensures ok { OnOk result (Opens opening.now cpu.old.program context.now cpu.new) }
    ensures err { IfErr result (Refused context.now) }
    ensures same { OnErr result (cpu.new ≡ cpu.old) }
{
    match cpu.reopen(alloc, context) {
        Ok(()) => {}
        Err(fault) => return Err(fault),
    }
    put(cpu, opening);
    Ok(())
}

/// Puts what is asked into a machine.
fn put(cpu: &mut Cpu, opening: &Opening)
    ensures { cpu.new ≡ with_opening opening.now cpu.old }
{
    for number in 0..REGISTERS {
        put_value(cpu, number, opening.registers[number]);
    }
}

/// Gives a register its value, if it has one.
fn put_value(cpu: &mut Cpu, number: usize, value: Option<u64>)
    requires { number < 10 }
    ensures { cpu.new ≡ record cpu.old { registers = with_value number value cpu.old.registers } }
{
    match value {
        Some(value) => set(cpu, number as u8, value),
        None => {}
    }
}

/// Gives a register a value, as an edit does.
fn set(cpu: &mut Cpu, number: u8, value: u64)
    requires { number < 10 }
    ensures { cpu.new ≡ record cpu.old { registers = slice_set cpu.old.registers number value } }
{
    match Reg::new(number) {
        Some(register) => {
            let edit = Edit::Register { register, value };
            let _done = cpu.edit(&edit);
        }
        None => {}
    }
}
