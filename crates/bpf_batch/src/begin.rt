//! The machine that stands on a case.
ghost use Rattle.std.specs.Prelude.{◌≡◌, IfErr, IfOk, List, true, ℕ};
ghost use Rattle.bpf_isa.specs.Programs.{Checked};
ghost use Rattle.bpf_steps.specs.State.{initial};
ghost use Rattle.input_texts.specs.Cases.{read_case};
ghost use Rattle.input_texts.specs.ReadLines.{Holds};
ghost use Rattle.bpf_batch.specs.Answers.{Opens, RefusesCase, is_memory, words_of};
ghost use Rattle.bpf_batch.specs.Batches.{Suits};
ghost use Rattle.bpf_batch.specs.Begins.{Begins, SuitsMachine};

use crate::batch::Batch;
use crate::fault::Refusal;
use bpf_isa::{LoadFault, check};
use bpf_machine::{Cpu, OpenFault};
use input_texts::{Case, CaseFault, LineBuffer, case_of};
use std::alloc::{AllocError, Global};

impl Refusal {
    /// Whether memory ran out.
    fn is_memory(&self) -> bool
        ensures { result ≡ is_memory self.now }
    {
        matches!(
            self,
            Refusal::Load(LoadFault::Memory) | Refusal::Open(OpenFault::OutOfMemory)
        )
    }
}

/// A machine before the first step of the case that a line is, or why there is none. It is the
/// machine of the case before, opened again, where that had the same words.
pub fn begin(
    alloc: Global,
    batch: &Batch<'_>,
    kept: Option<Cpu>,
    line: &LineBuffer,
) -> Result<Result<Cpu, Refusal>, AllocError>
    requires kept { Suits batch.now kept }
    ensures begins { (text : List ℕ) → Holds line.now text
        → IfOk result (Begins batch.now (read_case text)) }
    ensures suits { IfOk result (SuitsMachine batch.now) }
{
    let case = match read(alloc, line)? {
        Ok(case) => case,
        Err(fault) => return Ok(Err(Refusal::Line(fault))),
    };
    match machine_of(alloc, batch, kept, &case) {
        Ok(cpu) => Ok(Ok(cpu)),
        Err(refusal) => {
            if refusal.is_memory() {
                Err(AllocError)
            } else {
                Ok(Err(refusal))
            }
        }
    }
}

/// The case that a line is.
fn read(alloc: Global, line: &LineBuffer) -> Result<Result<Case, CaseFault>, AllocError>
    ensures { (text : List ℕ) → Holds line.now text → IfOk result (λ read. read ≡ read_case text) }
{
    match line.bytes() {
        Some(bytes) => case_of(alloc, bytes),
        None => Ok(Err(CaseFault::Long)),
    }
}

/// The words of a case.
fn words_of<'x>(batch: &Batch<'x>, case: &'x Case) -> &'x [u8]
    ensures { result.now ≡ words_of batch.now case.now }
{
    if case.is_shared {
        batch.program
    } else {
        case.words.as_slice()
    }
}

/// A machine before the first step of a case: the one of the case before, if it has the same words.
fn machine_of(
    alloc: Global,
    batch: &Batch<'_>,
    kept: Option<Cpu>,
    case: &Case,
) -> Result<Cpu, Refusal>
    requires kept { Suits batch.now kept }
    ensures ok { IfOk result (λ x. (code : Checked) × Opens batch.now case.now code
        × (x ≡ initial code case.now.context)) }
    ensures err { IfErr result (RefusesCase batch.now case.now) }
{
    let words = words_of(batch, case);
    match kept {
        Some(cpu) => {
            if has_words(&cpu, words) {
                reopened(alloc, batch, cpu, case)
            } else {
                opened(alloc, batch, words, case)
            }
        }
        None => opened(alloc, batch, words, case),
    }
}

/// Whether these are the words of a machine's program.
fn has_words(cpu: &Cpu, words: &[u8]) -> bool
    ensures { result ≡ true → cpu.now.program.bytes ≡ words.now }
{
    cpu.program().bytes() == words
}

/// A machine on these words.
fn opened(alloc: Global, batch: &Batch<'_>, words: &[u8], case: &Case) -> Result<Cpu, Refusal>
    requires words { words.now ≡ words_of batch.now case.now }
    ensures ok { IfOk result (λ x. (code : Checked) × Opens batch.now case.now code
        × (x ≡ initial code case.now.context)) }
    ensures err { IfErr result (RefusesCase batch.now case.now) }
{
    let program = match check(alloc, words, batch.maps) {
        Ok(program) => program,
        Err(fault) => return Err(Refusal::Load(fault)),
    };
    program.invariant();
    match Cpu::open(alloc, program, case.context.as_slice()) {
        Ok(cpu) => Ok(cpu),
        Err(fault) => Err(Refusal::Open(fault)),
    }
}

/// A machine that has the words of a case, opened again.
fn reopened(alloc: Global, batch: &Batch<'_>, cpu: Cpu, case: &Case) -> Result<Cpu, Refusal>
    requires words { cpu.program.bytes ≡ words_of batch.now case.now }
    requires maps { cpu.program.maps ≡ batch.now.maps.now }
    ensures ok { IfOk result (λ x. (code : Checked) × Opens batch.now case.now code
        × (x ≡ initial code case.now.context)) }
    ensures err { IfErr result (RefusesCase batch.now case.now) }
{
    let mut cpu = cpu;
    cpu.program().invariant();
    match cpu.reopen(alloc, case.context.as_slice()) {
        Ok(()) => Ok(cpu),
        Err(fault) => Err(Refusal::Open(fault)),
    }
}
