//! The text of where a machine stands.
ghost use Rattle.counted_io.specs.Writing.{Writes, WritesAfter};
ghost use Rattle.bpfdb_script.specs.Texts.{place};

use super::instructions::put_at;
use super::registers::number_in;
use bpf_machine::{Cpu, Fault, Status};
use counted_io::{Counted, Piece, WriteFault, put, put_all};
use std::io::Write;

/// Writes where a machine stands, without a line feed: the slot and the instruction to run, or how
/// it ended.
pub fn write_place<W: Write>(cpu: &Cpu, writer: &mut Counted<W>) -> Result<(), WriteFault>
    ensures { Writes W.contents writer.old writer.new result (place cpu.now) }
{
    put_place(writer, Ok(()), cpu)
}

/// Writes where a machine stands.
#[tactic(auto, unfolding(crate::specs::Texts::place))]
pub fn put_place<W: Write>(
    writer: &mut Counted<W>,
    so_far: Result<(), WriteFault>,
    cpu: &Cpu,
) -> Result<(), WriteFault>
    ensures { WritesAfter W.contents writer.old so_far writer.new result (place cpu.now) }
{
    let pc = cpu.pc();
    let slot = u64::from(pc);
    match cpu.status() {
        Status::Running => {
            cpu.invariant();
            let begun = put(writer, so_far, b"at ");
            put_at(writer, begun, cpu.program(), usize::from(pc))
        }
        Status::Exited => {
            let answer = number_in(cpu, 0);
            let place = [
                Piece::Text(b"exited at "),
                Piece::Decimal(slot),
                Piece::Text(b": r0 "),
                Piece::Hexadecimal(answer),
            ];
            put_all(writer, so_far, &place)
        }
        Status::Faulted(Fault::Access { address }) => {
            let place = [
                Piece::Text(b"fault access "),
                Piece::Hexadecimal(address),
                Piece::Text(b" at "),
                Piece::Decimal(slot),
            ];
            put_all(writer, so_far, &place)
        }
        Status::Faulted(Fault::Token { token }) => {
            let place = [
                Piece::Text(b"fault token "),
                Piece::Hexadecimal(token),
                Piece::Text(b" at "),
                Piece::Decimal(slot),
            ];
            put_all(writer, so_far, &place)
        }
        Status::Faulted(Fault::Depth) => {
            let place = [Piece::Text(b"fault depth at "), Piece::Decimal(slot)];
            put_all(writer, so_far, &place)
        }
    }
}
