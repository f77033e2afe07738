//! How often each instruction of a program runs.
ghost use Rattle.std.specs.Prelude.{◌≡◌, All, IfOk, OnErr, OnOk, length};
ghost use Rattle.bpf_session.specs.Plain.{plain_end};
ghost use Rattle.bpf_trace.specs.Profiles.{count_line, count_lines, counts_text, profile_of};
ghost use Rattle.counted_io.specs.Writing.{WritesAfter};

use crate::ending::put_told_end;
use bpf_isa::Program;
use bpf_machine::{Cpu, Ended};
use bpfdb_script::{SlotTexts, put_at, text_of_slot};
use counted_io::{Counted, WriteFault, put, put_decimal};
use std::alloc::{AllocError, Global};
use std::io::Write;
use std::marker::Model;

/// How often the instruction at each slot ran. Contracts see the counts, slot by slot; at the
/// second slot of a wide load it is 0.
#[derive(Drop)]
pub struct Profile {
    counts: Vec<u64>,
}

impl Model for Profile {
    ghost use Rattle.std.specs.Prelude.{ℕ, List};

    ghost Value = { List ℕ };

    ghost view = { λ p. p.counts.items };
}

impl Profile {
    /// Runs a machine to its end, or to a limit of steps, and counts the steps at each slot. All
    /// memory is taken before the first step.
    pub fn run(alloc: Global, cpu: &mut Cpu, limit: u64) -> Result<Profile, AllocError>
        ensures ok { IfOk result (λ profile. profile ≡ profile_of limit cpu.old) }
        ensures next { OnOk result (cpu.new ≡ plain_end limit cpu.old) }
        ensures same { OnErr result (cpu.new ≡ cpu.old) }
    {
        let mut counts = vec![in alloc; 0u64; cpu.program().len()]?;
        count_steps(cpu, limit, &mut counts);
        Ok(Profile { counts })
    }

    /// Writes the line of each instruction: how often it ran, its slot and its text, and what is told
    /// of its slot.
    fn put<W: Write>(
        &self,
        writer: &mut Counted<W>,
        so_far: Result<(), WriteFault>,
        texts: SlotTexts<'_>,
        program: &Program,
    ) -> Result<(), WriteFault>
        ensures { WritesAfter W.contents writer.old so_far writer.new result
            (count_lines texts.entry program.now 0 self.now) }
    {
        let counts = self.counts.as_slice();
        let mut told = so_far;
        for slot in 0..counts.len() {
            told = put_count(writer, told, texts, program, slot, counts[slot]);
        }
        told
    }
}

/// Writes the profile of a run, from the machine that it left: the line of each instruction, with what
/// is told of its slot, and where the machine stands.
pub fn put_profile<W: Write>(
    writer: &mut Counted<W>,
    so_far: Result<(), WriteFault>,
    texts: SlotTexts<'_>,
    profile: &Profile,
    limit: u64,
    cpu: &Cpu,
) -> Result<(), WriteFault>
    ensures { WritesAfter W.contents writer.old so_far writer.new result
        (counts_text texts.entry profile.now limit cpu.now) }
{
    let told = profile.put(writer, so_far, texts, cpu.program());
    put_told_end(writer, told, texts, limit, cpu)
}

/// Runs a machine to its end, or to a limit of steps, and counts the steps at each slot.
fn count_steps(cpu: &mut Cpu, limit: u64, counts: &mut [u64])
    requires slots { length counts.old ≡ length cpu.old.program.insns }
    requires zeros { All (λ count. count ≡ 0) counts.old }
    ensures counts { counts.new ≡ profile_of limit cpu.old }
    ensures next { cpu.new ≡ plain_end limit cpu.old }
{
    for _ in 0..limit {
        cpu.invariant();
        let slot = usize::from(cpu.pc());
        match cpu.advance() {
            Ok(()) => counts[slot] += 1,
            Err(Ended) => return,
        }
    }
}

/// Writes the line of the instruction that starts at a slot, and nothing where none does.
fn put_count<W: Write>(
    writer: &mut Counted<W>,
    so_far: Result<(), WriteFault>,
    texts: SlotTexts<'_>,
    program: &Program,
    slot: usize,
    count: u64,
) -> Result<(), WriteFault>
    ensures { WritesAfter W.contents writer.old so_far writer.new result
        (count_line texts.entry program.now slot count) }
{
    match program.insn_at(slot) {
        Some(_) => {
            let counted = put_decimal(writer, so_far, count);
            let parted = put(writer, counted, b" ");
            let named = put_at(writer, parted, program, slot);
            let told = put(writer, named, text_of_slot(texts, slot));
            put(writer, told, b"\n")
        }
        None => so_far,
    }
}
