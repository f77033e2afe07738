//! A hint at a terminal behind a refusal: what FILE looks like where it isn't words, which helper a
//! slot calls that bpfdb lacks, and the line of a slot where it is a listing.
ghost use Rattle.std.specs.Prelude.{◌≡◌, IfNone, IfSome, option_map, true};
ghost use Rattle.bpf_link.specs.Helpers.{helper_name};
ghost use Rattle.bpf_load.specs.Faults.{IsTargetFault};
ghost use Rattle.bpf_load.specs.Targets.{Loads};
ghost use Rattle.bpf_load.specs.declared.program.Loaded.{Loaded};
ghost use Rattle.bpf_load.specs.declared.target.SourceKind.TheVariants as kind;
ghost use Rattle.counted_io.specs.Lines.{lines};
ghost use Rattle.counted_io.specs.Writing.{Writes, WritesAfter};
ghost use Rattle.bpfdb_faults.specs.Streams.{Told, stream};
ghost use Rattle.bpfdb_jobs.specs.Hints.{AddsHint, AddsLine, IsHintOf, helper_at, helper_line, hint_after, hint_line, is_of_file, line_at, look_after, look_of, named, place_after};
ghost use Rattle.bpfdb_jobs.specs.Objects.{is_check};
ghost use Rattle.bpfdb_jobs.specs.declared.hint.Hint.TheVariants as hint;

use crate::job::Job;
use crate::known::is_check;
use crate::look::is_text;
use crate::row::line_at;
use bpf_isa::{LoadFault, PieceFault, WordFault};
use bpf_link::{helper_name, u32_at};
use bpf_load::{SourceKind, TargetFault, is_object, load};
use bpf_text::line_table;
use bpfdb_faults::flush_after;
use bpfdb_script::put_shown;
use counted_io::{Counted, Piece, WriteFault, put, put_all};
use std::alloc::Global;
use std::io::Write;

/// What is said of a refused program to someone at a terminal.
#[derive(Clone, Copy)]
pub enum Hint {
    /// FILE looks like an object, which `--object` takes.
    Object,
    /// FILE looks like a listing, which `--listing` takes.
    Listing,
    /// The word at this slot calls the helper of this number, which isn't one of bpfdb's.
    Helper(usize, u32),
    /// The instruction at the slot of the fault stands in this line of the listing.
    Line(usize, u64),
}

/// Adds the hint of a job that ended with this status, if there is one, on standard error where that
/// is a terminal. What of it can't be written is left out.
pub fn add_hint<E: Write>(
    alloc: Global,
    job: &Job<'_>,
    at_terminal: bool,
    status: u8,
    errors: &mut Counted<E>,
)
    ensures { AddsHint at_terminal job.now status (stream E.contents errors.old errors.new) }
{
    if at_terminal && status == 2 {
        let hint = hint_of(alloc, job);
        tell_hint(errors, job.name, hint);
    }
}

/// The hint of a job, if there is one.
fn hint_of(alloc: Global, job: &Job<'_>) -> Option<Hint>
    ensures { IsHintOf job.now result }
{
    if !is_check(&job.ask) {
        return None;
    }
    match job.target.kind {
        SourceKind::Words => hint_of_words(alloc, job),
        SourceKind::Listing => hint_of_listing(alloc, job),
        SourceKind::Object => None,
    }
}

/// The hint of a job over words.
fn hint_of_words(alloc: Global, job: &Job<'_>) -> Option<Hint>
    requires checks { is_check job.now.ask ≡ true }
    requires words { job.now.target.kind ≡ kind.Words }
    ensures { IsHintOf job.now result }
{
    match fault_of(alloc, job) {
        Some(fault) => look_after(&fault, job.file),
        None => None,
    }
}

/// The hint of a job over a listing.
fn hint_of_listing(alloc: Global, job: &Job<'_>) -> Option<Hint>
    requires checks { is_check job.now.ask ≡ true }
    requires listing { job.now.target.kind ≡ kind.Listing }
    ensures { IsHintOf job.now result }
{
    let Some(fault) = fault_of(alloc, job) else {
        return None;
    };
    match line_table(alloc, job.file) {
        Ok(table) => place_after(&fault, table.as_slice()),
        Err(_) => None,
    }
}

/// Why FILE isn't loaded; None where it is.
fn fault_of<'a>(alloc: Global, job: &Job<'a>) -> Option<TargetFault<'a>>
    ensures some { IfSome result (IsTargetFault job.now.target job.now.file.now) }
    ensures none { IfNone result ((loaded : Loaded) × Loads job.now.target job.now.file.now loaded) }
{
    match load(alloc, job.file, &job.target) {
        Ok(loaded) => {
            drop(loaded);
            None
        }
        Err(fault) => Some(fault),
    }
}

/// The hint after a refusal of words.
fn look_after(why: &TargetFault<'_>, file: &[u8]) -> Option<Hint>
    ensures { result ≡ look_after why.now file.now }
{
    match why {
        TargetFault::Program(fault) => hint_after(fault, file),
        _ => None,
    }
}

/// The hint after a fault of words.
fn hint_after(fault: &LoadFault, file: &[u8]) -> Option<Hint>
    ensures { result ≡ hint_after fault.now file.now }
{
    if is_of_file(fault) {
        return look_of(file);
    }
    match fault {
        LoadFault::At {
            slot,
            fault: PieceFault::UnknownHelper,
        } => helper_at(*slot, file),
        _ => None,
    }
}

/// The helper that the word at a slot calls: its imm.
fn helper_at(slot: usize, file: &[u8]) -> Option<Hint>
    ensures { result ≡ helper_at slot file.now }
{
    if slot < file.len() / 8 {
        Some(Hint::Helper(slot, u32_at(file, 8 * slot + 4)))
    } else {
        None
    }
}

/// Whether a fault is one of a file that isn't words.
fn is_of_file(fault: &LoadFault) -> bool
    ensures { result ≡ is_of_file fault.now }
{
    match fault {
        LoadFault::Ragged => true,
        LoadFault::At {
            slot,
            fault: PieceFault::Word(WordFault::UnknownInstruction),
        } => *slot == 0,
        LoadFault::At {
            slot,
            fault: PieceFault::Word(WordFault::UnusedField),
        } => *slot == 0,
        _ => false,
    }
}

/// What a file looks like.
fn look_of(file: &[u8]) -> Option<Hint>
    ensures { result ≡ look_of file.now }
{
    if is_object(file) {
        Some(Hint::Object)
    } else if is_text(file) {
        Some(Hint::Listing)
    } else {
        None
    }
}

/// The hint after a refusal of a listing's program, by its table.
fn place_after(why: &TargetFault<'_>, table: &[u8]) -> Option<Hint>
    ensures { result ≡ place_after why.now table.now }
{
    match why {
        TargetFault::Program(LoadFault::At { slot, .. }) => place_of(*slot, table),
        _ => None,
    }
}

/// The place of a slot in its listing.
fn place_of(slot: usize, table: &[u8]) -> Option<Hint>
    ensures { result ≡ option_map (hint.Line slot) (line_at slot (lines table.now)) }
{
    match line_at(table, slot as u64) {
        Some(line) => Some(Hint::Line(slot, line)),
        None => None,
    }
}

/// Writes the line of a hint, if there is one. What of it can't be written is left out.
fn tell_hint<E: Write>(errors: &mut Counted<E>, name: &str, hint: Option<Hint>)
    ensures { AddsLine name.now (stream E.contents errors.old errors.new) hint }
{
    match hint {
        Some(hint) => try_hint(errors, name, &hint),
        None => {}
    }
}

/// Writes the line of a hint, as far as it can be written.
fn try_hint<E: Write>(errors: &mut Counted<E>, name: &str, hint: &Hint)
    ensures { Told (stream E.contents errors.old errors.new) (hint_line name.now hint.now) }
{
    match flush_hint(errors, name, hint) {
        Ok(()) => {}
        Err(WriteFault) => {}
    }
}

/// Writes the line of a hint, and flushes.
fn flush_hint<E: Write>(errors: &mut Counted<E>, name: &str, hint: &Hint) -> Result<(), WriteFault>
    ensures { Writes E.contents errors.old errors.new result (hint_line name.now hint.now) }
{
    let written = write_hint(errors, name, hint);
    flush_after(errors, written)
}

/// Writes the line of a hint.
fn write_hint<E: Write>(errors: &mut Counted<E>, name: &str, hint: &Hint) -> Result<(), WriteFault>
    ensures { Writes E.contents errors.old errors.new result (hint_line name.now hint.now) }
{
    match hint {
        Hint::Object => {
            let named = put_shown(errors, Ok(()), name.as_bytes());
            put(errors, named, b" looks like an object: --object\n")
        }
        Hint::Listing => {
            let named = put_shown(errors, Ok(()), name.as_bytes());
            put(errors, named, b" looks like a listing: --listing\n")
        }
        Hint::Helper(slot, helper) => write_helper(errors, *slot, *helper),
        Hint::Line(slot, line) => {
            let pieces = [
                Piece::Text(b"slot "),
                Piece::Decimal(*slot as u64),
                Piece::Text(b" is line "),
                Piece::Decimal(*line),
                Piece::Text(b" of "),
            ];
            let begun = put_all(errors, Ok(()), &pieces);
            let named = put_shown(errors, begun, name.as_bytes());
            put(errors, named, b"\n")
        }
    }
}

/// Writes the line of a helper: its number, its name where it has one, and what answers it.
fn write_helper<E: Write>(
    errors: &mut Counted<E>,
    slot: usize,
    helper: u32,
) -> Result<(), WriteFault>
    ensures { Writes E.contents errors.old errors.new result (helper_line slot helper) }
{
    let pieces = [
        Piece::Text(b"slot "),
        Piece::Decimal(slot as u64),
        Piece::Text(b" calls helper "),
        Piece::Decimal(u64::from(helper)),
    ];
    let begun = put_all(errors, Ok(()), &pieces);
    let told = write_name(errors, begun, helper_name(helper));
    put(
        errors,
        told,
        b": in an object --with, --helper or Linux's library answers it\n",
    )
}

/// Writes the kernel's name of a helper in parentheses, where there is one.
fn write_name<E: Write>(
    errors: &mut Counted<E>,
    so_far: Result<(), WriteFault>,
    name: &[u8],
) -> Result<(), WriteFault>
    ensures { WritesAfter E.contents errors.old so_far errors.new result (named name.now) }
{
    if name.is_empty() {
        return so_far;
    }
    let pieces = [Piece::Text(b" (bpf_"), Piece::Text(name), Piece::Text(b")")];
    put_all(errors, so_far, &pieces)
}
