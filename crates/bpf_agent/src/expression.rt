//! Expressions: bytecode, and what it comes to in a state of a machine.
ghost use Rattle.std.specs.Prelude.{◌≡◌, ◌≤◌};
ghost use Rattle.bpf_agent.specs.Expressions.{and_push, branched, done, ended, left, memory_read, on_address, on_one, on_two, operand, operand_len, ordered, popped, register_read, rotated, stacked, step, swapped, value, went, width_of};

use crate::arithmetic::{binary, unary};
use crate::registers::value_of;
use crate::stack::Stack;
use bpf_machine::Cpu;
use byteorder::{BigEndian, ByteOrder, LittleEndian};

/// How many bytes stand behind an opcode.
fn operand_len(op: u8) -> usize
    ensures value { result ≡ operand_len op }
    ensures short { result ≤ 8 }
{
    match op {
        0x16 | 0x22 | 0x2a | 0x32 => 1,
        0x20 | 0x21 | 0x23 | 0x26 => 2,
        0x24 => 4,
        0x25 => 8,
        _ => 0,
    }
}

/// The number that n bytes are, the highest first. None where the bytecode ends before them.
fn operand(code: &[u8], at: usize, n: usize) -> Option<u64>
    requires short { n ≤ 8 }
    ensures { result ≡ operand code.now at n }
{
    if code.len() < at || code.len() - at < n {
        return None;
    }
    if n == 0 {
        return Some(0);
    }
    Some(BigEndian::read_uint(&code[at..], n))
}

/// The most instructions of an evaluation.
const MOST_INSTRUCTIONS: usize = 1024;

/// How an evaluation goes on behind an instruction.
#[derive(Clone, Copy)]
pub enum Next {
    /// At this byte of the bytecode.
    At(usize),
    /// Not at all: this is its value.
    Value(u64),
}

/// Puts a number on the stack. Whether there was one, and room for it.
fn and_push(number: Option<u64>, stack: &mut Stack) -> bool
    ensures { left result stack.new ≡ and_push number stack.old }
{
    match number {
        Some(number) => stack.push(number),
        None => false,
    }
}

/// An instruction on the newest number, with what stands behind its opcode.
fn on_one(op: u8, n: u64, stack: &mut Stack) -> bool
    ensures { left result stack.new ≡ on_one op n stack.old }
{
    match stack.pop() {
        Some(v) => and_push(unary(op, n, v), stack),
        None => false,
    }
}

/// An instruction on the newest two numbers.
fn on_two(op: u8, stack: &mut Stack) -> bool
    ensures { left result stack.new ≡ on_two op stack.old }
{
    let Some(b) = stack.pop() else {
        return false;
    };
    let Some(a) = stack.pop() else {
        return false;
    };
    and_push(binary(op, a, b), stack)
}

/// The newest two numbers change places.
fn swapped(stack: &mut Stack) -> bool
    ensures { left result stack.new ≡ swapped stack.old }
{
    let Some(b) = stack.pop() else {
        return false;
    };
    let Some(a) = stack.pop() else {
        return false;
    };
    if !stack.push(b) {
        return false;
    }
    stack.push(a)
}

/// The newest number goes behind the next two.
fn rotated(stack: &mut Stack) -> bool
    ensures { left result stack.new ≡ rotated stack.old }
{
    let Some(c) = stack.pop() else {
        return false;
    };
    let Some(b) = stack.pop() else {
        return false;
    };
    let Some(a) = stack.pop() else {
        return false;
    };
    if !stack.push(c) {
        return false;
    }
    if !stack.push(a) {
        return false;
    }
    stack.push(b)
}

/// The newest number is dropped.
fn popped(stack: &mut Stack) -> bool
    ensures { left result stack.new ≡ popped stack.old }
{
    stack.pop().is_some()
}

/// An instruction on the order of numbers: `dup`, `pop`, `swap`, `rot`.
fn ordered(op: u8, stack: &mut Stack) -> bool
    ensures { left result stack.new ≡ ordered op stack.old }
{
    match op {
        0x28 => and_push(stack.get(0), stack),
        0x29 => popped(stack),
        0x2b => swapped(stack),
        0x33 => rotated(stack),
        _ => false,
    }
}

/// A register by gdb's number.
fn register_read(cpu: &Cpu, n: u64) -> Option<u64>
    ensures { result ≡ register_read cpu.now n }
{
    if n <= 22 {
        Some(value_of(cpu, n as u8))
    } else {
        None
    }
}

/// The number that some bytes of memory are, the lowest first.
fn memory_read(cpu: &Cpu, address: u64, n: usize) -> Option<u64>
    requires some { 1 ≤ n }
    requires few { n ≤ 8 }
    ensures { result ≡ memory_read cpu.now address n }
{
    match cpu.peek(address, n) {
        Some(bytes) => Some(LittleEndian::read_uint(bytes, n)),
        None => None,
    }
}

/// How many bytes of memory an instruction reads.
fn width_of(op: u8) -> usize
    ensures value { result ≡ width_of op }
    ensures some { 1 ≤ result }
    ensures few { result ≤ 8 }
{
    match op {
        0x17 => 1,
        0x18 => 2,
        0x19 => 4,
        _ => 8,
    }
}

/// A read of memory at the address that is the newest number.
fn on_address(op: u8, cpu: &Cpu, stack: &mut Stack) -> bool
    ensures { left result stack.new ≡ on_address op cpu.now stack.old }
{
    match stack.pop() {
        Some(a) => and_push(memory_read(cpu, a, width_of(op)), stack),
        None => false,
    }
}

/// What an instruction that doesn't jump does to the stack. False where it has a fault.
#[tactic(auto, unfolding(crate::specs::Expressions::stacked))]
fn stacked(op: u8, n: u64, cpu: &Cpu, stack: &mut Stack) -> bool
    ensures { left result stack.new ≡ stacked op n cpu.now stack.old }
{
    match op {
        0x22..=0x25 => stack.push(n),
        0x26 => and_push(register_read(cpu, n), stack),
        0x32 => and_push(stack.get(n), stack),
        0x17..=0x1a => on_address(op, cpu, stack),
        0x0e | 0x12 | 0x16 | 0x2a => on_one(op, n, stack),
        _ if op >= 0x28 => ordered(op, stack),
        _ => on_two(op, stack),
    }
}

/// `if_goto`: to byte n, unless the newest number is 0.
fn branched(n: usize, after: usize, stack: &mut Stack) -> Option<Next>
    ensures { went result stack.new ≡ branched n after stack.old }
{
    match stack.pop() {
        Some(0) => Some(Next::At(after)),
        Some(_) => Some(Next::At(n)),
        None => None,
    }
}

/// `end`: the newest number is the value.
fn ended(stack: &mut Stack) -> Option<Next>
    ensures { went result stack.new ≡ ended stack.old }
{
    match stack.pop() {
        Some(v) => Some(Next::Value(v)),
        None => None,
    }
}

/// Does an instruction, n being what stands behind its opcode and `after` where the next one begins.
/// None where it has a fault.
#[tactic(auto, unfolding(crate::specs::Expressions::done))]
fn done(op: u8, n: u64, after: usize, cpu: &Cpu, stack: &mut Stack) -> Option<Next>
    ensures { went result stack.new ≡ done op n after cpu.now stack.old }
{
    match op {
        0x20 => branched(n as usize, after, stack),
        0x21 => Some(Next::At(n as usize)),
        0x27 => ended(stack),
        _ => {
            if stacked(op, n, cpu, stack) {
                Some(Next::At(after))
            } else {
                None
            }
        }
    }
}

/// Does the instruction at a byte of the bytecode. None where it has a fault, or there is none.
fn step(code: &[u8], cpu: &Cpu, at: usize, stack: &mut Stack) -> Option<Next>
    ensures { went result stack.new ≡ step code.now cpu.now at stack.old }
{
    if at >= code.len() {
        return None;
    }
    let op = code[at];
    let len = operand_len(op);
    match operand(code, at + 1, len) {
        Some(n) => done(op, n, at + 1 + len, cpu, stack),
        None => None,
    }
}

/// What a condition comes to in the machine as it stands: the number that its `end` takes off the
/// stack (gdb's manual, appendix "The GDB Agent Expression Mechanism"). None where an instruction
/// isn't one of those, divides by zero, shifts by 64 and more, reads what isn't there, or has too few
/// numbers or more than 32; where the bytecode runs past its end; or after 1,024 instructions.
pub fn value(code: &[u8], cpu: &Cpu) -> Option<u64>
    ensures { result ≡ value code.now cpu.now }
{
    let mut stack = Stack::new();
    let mut at = 0;
    for _k in 0..MOST_INSTRUCTIONS {
        match step(code, cpu, at, &mut stack) {
            Some(Next::At(to)) => at = to,
            Some(Next::Value(number)) => return Some(number),
            None => return None,
        }
    }
    None
}
