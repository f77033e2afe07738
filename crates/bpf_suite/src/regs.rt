//! Registers before the first step, as sections set them: a line each.
ghost use Rattle.std.specs.Prelude.{◌≡◌, ◌==◌, ◌∷◌, ◌++◌, IfOk, OnOk, [], filter, not};
ghost use Rattle.bpf_suite.specs.Regs.{are_regs, is_reg_line, last_lines, reg_line, reg_lines, reg_of, register_in, with_reg, with_regs};

use crate::body::{number_of, trimmed};
use bpf_isa::Reg;
use bpf_machine::{Cpu, Edit};
use counted_io::{sides, trim_start};
use std::alloc::{AllocError, Global};
use std::marker::Model;

/// A register, and the number that it gets.
#[derive(Clone, Copy)]
pub struct RegLine {
    pub register: Reg,
    pub value: u64,
}

/// Registers with their numbers, by the lines that give them. Contracts see these as a list.
#[derive(Drop)]
pub struct Regs<'x> {
    pub lines: &'x [RegLine],
}

impl<'x> Model for Regs<'x> {
    ghost use Rattle.std.specs.Prelude.{List};
    ghost use Rattle.bpf_suite.specs.declared.regs.RegLine.{RegLine};

    ghost Value = { List RegLine };

    ghost view = { λ r. r.lines.now };
}

/// What the lines of a section set.
pub fn reg_lines(alloc: Global, body: &[u8]) -> Result<Vec<RegLine>, AllocError>
    ensures { IfOk result (λ found. found.items ≡ reg_lines body.now) }
{
    body.split(|byte| *byte == b'\n')
        .filter_map(|line| reg_line(line))
        .collect(alloc)
}

/// What a line sets, None where it sets nothing.
fn reg_line(line: &[u8]) -> Option<RegLine>
    ensures { result ≡ reg_line line.now }
{
    let (name, number) = sides(line, b'=');
    reg_of(register_in(name), number_of(number))
}

/// A register and its number, where both are there.
fn reg_of(register: Option<Reg>, value: Option<u64>) -> Option<RegLine>
    ensures { result ≡ reg_of register value }
{
    match register {
        Some(register) => match value {
            Some(value) => Some(RegLine { register, value }),
            None => None,
        },
        None => None,
    }
}

/// The register that a text names, if it can be set.
fn register_in(text: &[u8]) -> Option<Reg>
    ensures { result ≡ register_in text.now }
{
    match Reg::parse(trimmed(text)) {
        Some(register) => {
            if register.number() < 10 {
                Some(register)
            } else {
                None
            }
        }
        None => None,
    }
}

/// Whether each line of a section is blank, or sets a register.
pub fn are_regs(body: &[u8]) -> bool
    ensures { result ≡ are_regs body.now }
{
    body.split(|byte| *byte == b'\n')
        .all(|line| is_reg_line(line))
}

/// Whether a line is blank, or sets a register.
fn is_reg_line(line: &[u8]) -> bool
    ensures { result ≡ is_reg_line line.now }
{
    trim_start(line).is_empty() || reg_line(line).is_some()
}

/// The lines that count: of each register the last.
pub fn last_lines(alloc: Global, lines: &[RegLine]) -> Result<Vec<RegLine>, AllocError>
    ensures { IfOk result (λ last. last.items ≡ last_lines lines.now) }
{
    let mut last = Vec::new(alloc);
    for line in lines {
        put_last(&mut last, line)?;
    }
    Ok(last)
}

/// Puts a line behind others, of which an earlier one of its register goes.
fn put_last(lines: &mut Vec<RegLine>, line: &RegLine) -> Result<(), AllocError>
    ensures { OnOk result (lines.new.items
        ≡ filter (λ other. not (other.register == line.now.register)) lines.old.items
        ++ line.now ∷ []) }
{
    lines.retain(|other| is_of_another(other, line.register));
    match lines.push(*line) {
        Ok(()) => Ok(()),
        Err(_) => Err(AllocError),
    }
}

/// Whether a line is about another register.
fn is_of_another(line: &RegLine, register: Reg) -> bool
    ensures { result ≡ not (line.now.register == register) }
{
    line.register.number() != register.number()
}

/// Gives registers their numbers.
pub fn set_regs(cpu: &mut Cpu, regs: &Regs<'_>)
    ensures next { cpu.new ≡ with_regs regs.now cpu.old }
    ensures program { cpu.new.program ≡ cpu.old.program }
{
    set_each(cpu, regs.lines);
}

/// Gives each of these registers its number.
fn set_each(cpu: &mut Cpu, lines: &[RegLine])
    ensures { cpu.new ≡ with_regs lines.now cpu.old }
{
    for line in lines {
        set_reg(cpu, line);
    }
}

/// Gives a register its number; nothing changes where it can't be set.
fn set_reg(cpu: &mut Cpu, line: &RegLine)
    ensures { cpu.new ≡ with_reg line.now cpu.old }
{
    let edit = Edit::Register {
        register: line.register,
        value: line.value,
    };
    let _done = cpu.edit(&edit);
}
