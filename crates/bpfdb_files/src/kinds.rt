//! Files over any reader: how much is read of each kind.
ghost use Rattle.std.specs.Prelude.{IfOk, IfErr, option_map};
ghost use Rattle.bpfdb_files.specs.Reading.{Counts, ReadsKind};
ghost use Rattle.bpfdb_files.specs.declared.kinds.FileKind.TheVariants.{Any, Context, Program, Source};

use crate::reading::{FirstFault, read_first};
use bpf_isa::MOST_SLOTS;
use bpf_machine::CONTEXT_LIMIT;
use counted_io::Counted;
use std::alloc::Global;
use std::io::Read;

/// The most bytes that are read of a program: one more than any program has, so that the checker
/// finds a longer one too long.
const PROGRAM_BYTES: usize = 8 * MOST_SLOTS + 1;

/// The most bytes that are read of a context: one more than any context has.
const CONTEXT_BYTES: usize = CONTEXT_LIMIT + 1;

/// The most bytes of a source: 64 MiB, about a thousand for each instruction that a program can
/// have.
pub const SOURCE_BYTES: usize = 67_108_864;

/// The most bytes that are read of what may be a source: one more than any has.
const ANY_BYTES: usize = SOURCE_BYTES + 1;

/// What a file is read as.
#[derive(Clone, Copy)]
pub enum FileKind {
    /// The raw words of a program.
    Program,
    /// A program, of which only its bytes show whether it is words or a source.
    Any,
    /// A context.
    Context,
    /// A listing, an object, a file of tests or a script.
    Source,
}

/// Reads the bytes of a file of a kind, from where the reader stands: of a program at most the first
/// 524,281 and of a context at most the first 65,537, which is one more than any has; of a source
/// all, or None where there are more than 67,108,864; and of what may be each at most the first
/// 67,108,865.
pub fn read_kind<R: Read>(
    alloc: Global,
    reader: &mut Counted<R>,
    kind: FileKind,
) -> Result<Option<Vec<u8>>, FirstFault>
    ensures ok { IfOk result (λ found. ReadsKind R.remaining kind reader.old reader.new
        (option_map (λ b. b.items) found)) }
    ensures err { IfErr result (λ why. Counts why reader.old.failures reader.new.failures) }
{
    match kind {
        FileKind::Program => read_program(alloc, reader),
        FileKind::Any => read_any(alloc, reader),
        FileKind::Context => read_context(alloc, reader),
        FileKind::Source => read_source(alloc, reader),
    }
}

/// Reads a program's bytes, or the first ones where there are too many.
fn read_program<R: Read>(
    alloc: Global,
    reader: &mut Counted<R>,
) -> Result<Option<Vec<u8>>, FirstFault>
    ensures ok { IfOk result (λ found. ReadsKind R.remaining Program reader.old reader.new
        (option_map (λ b. b.items) found)) }
    ensures err { IfErr result (λ why. Counts why reader.old.failures reader.new.failures) }
{
    match read_first(alloc, reader, PROGRAM_BYTES) {
        Ok(bytes) => Ok(Some(bytes)),
        Err(fault) => Err(fault),
    }
}

/// Reads the bytes of what may be a source, or one more than any has.
fn read_any<R: Read>(alloc: Global, reader: &mut Counted<R>) -> Result<Option<Vec<u8>>, FirstFault>
    ensures ok { IfOk result (λ found. ReadsKind R.remaining Any reader.old reader.new
        (option_map (λ b. b.items) found)) }
    ensures err { IfErr result (λ why. Counts why reader.old.failures reader.new.failures) }
{
    match read_first(alloc, reader, ANY_BYTES) {
        Ok(bytes) => Ok(Some(bytes)),
        Err(fault) => Err(fault),
    }
}

/// Reads a context's bytes, or the first ones where there are too many.
fn read_context<R: Read>(
    alloc: Global,
    reader: &mut Counted<R>,
) -> Result<Option<Vec<u8>>, FirstFault>
    ensures ok { IfOk result (λ found. ReadsKind R.remaining Context reader.old reader.new
        (option_map (λ b. b.items) found)) }
    ensures err { IfErr result (λ why. Counts why reader.old.failures reader.new.failures) }
{
    match read_first(alloc, reader, CONTEXT_BYTES) {
        Ok(bytes) => Ok(Some(bytes)),
        Err(fault) => Err(fault),
    }
}

/// Reads all bytes of a source, or none where there are too many.
fn read_source<R: Read>(
    alloc: Global,
    reader: &mut Counted<R>,
) -> Result<Option<Vec<u8>>, FirstFault>
    ensures ok { IfOk result (λ found. ReadsKind R.remaining Source reader.old reader.new
        (option_map (λ b. b.items) found)) }
    ensures err { IfErr result (λ why. Counts why reader.old.failures reader.new.failures) }
{
    match read_first(alloc, reader, SOURCE_BYTES + 1) {
        Ok(text) => {
            if text.len() > SOURCE_BYTES {
                Ok(None)
            } else {
                Ok(Some(text))
            }
        }
        Err(fault) => Err(fault),
    }
}
