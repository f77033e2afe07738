//! The text of the registers.
ghost use Rattle.std.specs.Prelude.{◌≡◌, ◌≤◌};
ghost use Rattle.bpf_steps.specs.State.{register as register_of};
ghost use Rattle.counted_io.specs.Writing.{WritesAfter};
ghost use Rattle.bpfdb_script.specs.Texts.{text_of_state};

use super::place::put_place;
use bpf_isa::Reg;
use bpf_machine::Cpu;
use counted_io::{Counted, Piece, WriteFault, put, put_all};
use std::io::Write;

/// The number in a register.
pub fn number_in(cpu: &Cpu, number: u8) -> u64
    requires { number ≤ 10 }
    ensures { result ≡ register_of cpu.now number }
{
    match Reg::new(number) {
        Some(register) => cpu.reg(register),
        None => unreachable!(),
    }
}

/// Writes the line of the registers, and the line of where the machine stands.
pub fn put_state<W: Write>(
    writer: &mut Counted<W>,
    so_far: Result<(), WriteFault>,
    cpu: &Cpu,
) -> Result<(), WriteFault>
    ensures { WritesAfter W.contents writer.old so_far writer.new result (text_of_state cpu.now) }
{
    let first = number_in(cpu, 0);
    let begin = [Piece::Text(b"r0="), Piece::Hexadecimal(first)];
    let mut told = put_all(writer, so_far, &begin);
    for number in 1..11 {
        let held = number_in(cpu, number);
        let register = [
            Piece::Text(b" r"),
            Piece::Decimal(u64::from(number)),
            Piece::Text(b"="),
            Piece::Hexadecimal(held),
        ];
        told = put_all(writer, told, &register);
    }
    let ended = put(writer, told, b"\n");
    let placed = put_place(writer, ended, cpu);
    put(writer, placed, b"\n")
}
