//! What a program that has exited came to.
ghost use Rattle.std.specs.Prelude.{◌≡◌};
ghost use Rattle.std.specs.Option.{option_map};
ghost use Rattle.bpfdb_jobs.specs.Results.{behind_number, packet_of, result_line, result_text, verdict_by};
ghost use Rattle.counted_io.specs.Writing.{Writes, WritesAfter};

use bpf_load::{SourceKind, Target};
use bpf_machine::Cpu;
use bpf_packet::{Packet, verdict_name};
use bpfdb_faults::flush_after;
use bpfdb_script::number_in;
use counted_io::{Counted, WriteFault, put, put_hexadecimal};
use std::io::Write;

/// The kernel's struct of the packet that a program takes, if it takes one.
fn packet_of(target: &Target<'_>) -> Option<Packet>
    ensures { result ≡ packet_of target.now }
{
    match target.kind {
        SourceKind::Object => target.packet,
        _ => None,
    }
}

/// The name of the verdict that a result is, if it is one.
fn verdict_by(packet: Option<Packet>, value: u64) -> Option<&'static [u8]>
    ensures { option_map (λ name. name.now) result ≡ verdict_by packet value }
{
    match packet {
        Some(packet) => verdict_name(packet, value),
        None => None,
    }
}

/// Writes the name of a verdict behind a blank, if there is one.
fn put_verdict<W: Write>(
    writer: &mut Counted<W>,
    so_far: Result<(), WriteFault>,
    name: Option<&'static [u8]>,
) -> Result<(), WriteFault>
    ensures { WritesAfter W.contents writer.old so_far writer.new result
        (behind_number (option_map (λ name. name.now) name.entry)) }
{
    match name {
        Some(name) => {
            let begun = put(writer, so_far, b" ");
            put(writer, begun, name)
        }
        None => put(writer, so_far, b""),
    }
}

/// Writes the line of a result, and flushes.
fn write_line<W: Write>(
    writer: &mut Counted<W>,
    packet: Option<Packet>,
    value: u64,
) -> Result<(), WriteFault>
    ensures { Writes W.contents writer.old writer.new result (result_line packet value) }
{
    let begun = put_hexadecimal(writer, Ok(()), value);
    let named = put_verdict(writer, begun, verdict_by(packet, value));
    let told = put(writer, named, b"\n");
    flush_after(writer, told)
}

/// Writes what the program of a machine that has exited came to, and flushes.
pub fn write_result<W: Write>(
    writer: &mut Counted<W>,
    target: &Target<'_>,
    cpu: &Cpu,
) -> Result<(), WriteFault>
    ensures { Writes W.contents writer.old writer.new result (result_text target.now cpu.now) }
{
    write_line(writer, packet_of(target), number_in(cpu, 0))
}
