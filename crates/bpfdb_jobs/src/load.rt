//! What a job of `load` does.
ghost use Rattle.std.specs.Prelude.{◌≡◌, ◌≤◌, ◌++◌, All, None, Some};
ghost use Rattle.bpf_lines.specs.Objects.{HasPartLines, program_table};
ghost use Rattle.bpf_load.specs.Targets.{Loads, lent};
ghost use Rattle.counted_io.specs.Writing.{Writes, WritesAfter};
ghost use Rattle.bpfdb_jobs.specs.Differences.{differences};
ghost use Rattle.bpfdb_jobs.specs.Endings.{EndsPrinted};
ghost use Rattle.bpfdb_jobs.specs.Jobs.{Prints, printed};
ghost use Rattle.bpfdb_jobs.specs.Programs.{behind_address, map_row, map_rows, name_in, program_text, row_of};
ghost use Rattle.bpfdb_options.specs.declared.ask.Ask.TheVariants.{Load};
ghost use Rattle.bpfdb_jobs.specs.Streams.{between};

use crate::check::put_size;
use crate::differences::put_differences;
use crate::job::Job;
use crate::known::lines_fault;
use crate::object::refuse_object;
use crate::streams::Streams;
use bpf_isa::MapShape;
use bpf_lines::{ObjectLines, program_lines, write_table};
use bpf_link::short_at;
use bpf_load::{LinkedObject, Loaded, Notes, SourceKind, notes_of};
use bpf_steps::platform::{MAP_BASE, MAP_STRIDE};
use bpf_text::line_table;
use bpfdb_faults::{JobFault, JobRefusal, ended, flush_after, give_up};
use bpfdb_script::put_shown;
use counted_io::{Counted, Piece, WriteFault, put, put_all};
use std::alloc::Global;
use std::io::Write;

/// Writes the size of a program, its maps, what of it is other than Linux's, and where its slots stand,
/// and runs nothing.
pub fn load_job<W: Write, E: Write>(
    alloc: Global,
    job: &Job<'_>,
    loaded: &Loaded,
    streams: &mut Streams<W, E>,
) -> u8
    requires loaded { Loads job.now.target job.now.file.now loaded.now }
    ensures does { EndsPrinted Load job.now
        (between W.contents E.contents streams.old streams.new) result }
    ensures status { result ≤ 2 }
{
    match &loaded.object {
        Some(object) => tell_object(alloc, job, loaded, object, streams),
        None => tell_source(alloc, job, loaded, streams),
    }
}

/// Tells of the program of an object, with its lines of C.
fn tell_object<W: Write, E: Write>(
    alloc: Global,
    job: &Job<'_>,
    loaded: &Loaded,
    object: &LinkedObject,
    streams: &mut Streams<W, E>,
) -> u8
    requires loaded { Loads job.now.target job.now.file.now loaded.now }
    requires object { loaded.now.object ≡ Some object.now }
    ensures does { EndsPrinted Load job.now
        (between W.contents E.contents streams.old streams.new) result }
    ensures status { result ≤ 2 }
{
    let own = object.sources.own.as_slice();
    let notes = notes_of(alloc, job.file, &job.target, job.library);
    match program_lines(alloc, own, job.target.section, job.target.with) {
        Ok(all) => {
            let words = object.program.words.as_slice();
            let written = write_object(
                &mut streams.output,
                job,
                loaded,
                &notes,
                words,
                all.as_slice(),
            );
            let flushed = flush_after(&mut streams.output, written);
            ended(flushed, &mut streams.errors)
        }
        Err(told) => refuse_object(&lines_fault(job, &told), &mut streams.errors),
    }
}

/// Writes the program of an object, what of it is other than Linux's, and the table of its slots.
fn write_object<W: Write>(
    writer: &mut Counted<W>,
    job: &Job<'_>,
    loaded: &Loaded,
    notes: &Notes<'_>,
    words: &[u8],
    all: &[ObjectLines<'_>],
) -> Result<(), WriteFault>
    requires { All HasPartLines all.now }
    ensures { Writes W.contents writer.old writer.new result (program_text loaded.now
        ++ (differences notes.now ++ program_table job.now.target.packet words.now all.now)) }
{
    let begun = write_program(writer, loaded);
    match put_differences(writer, begun, notes) {
        Ok(()) => write_table(writer, job.target.packet, words, all),
        Err(fault) => Err(fault),
    }
}

/// Tells of the program of words or of a listing, with the lines of this.
fn tell_source<W: Write, E: Write>(
    alloc: Global,
    job: &Job<'_>,
    loaded: &Loaded,
    streams: &mut Streams<W, E>,
) -> u8
    requires loaded { Loads job.now.target job.now.file.now loaded.now }
    requires object { loaded.now.object ≡ None }
    ensures does { EndsPrinted Load job.now
        (between W.contents E.contents streams.old streams.new) result }
    ensures status { result ≤ 2 }
{
    match job.target.kind {
        SourceKind::Listing => match line_table(alloc, job.file) {
            Ok(table) => tell_rows(job, loaded, table.as_slice(), streams),
            Err(fault) => give_up(
                &mut streams.errors,
                &JobFault::Refused(JobRefusal::Listing(fault)),
            ),
        },
        SourceKind::Words | SourceKind::Object => tell_rows(job, loaded, b"", streams),
    }
}

/// Writes a program, and the rows of its slots behind it.
fn tell_rows<W: Write, E: Write>(
    job: &Job<'_>,
    loaded: &Loaded,
    rows: &[u8],
    streams: &mut Streams<W, E>,
) -> u8
    requires { Prints Load job.now (printed (program_text loaded.now ++ rows.now)) }
    ensures does { EndsPrinted Load job.now
        (between W.contents E.contents streams.old streams.new) result }
    ensures status { result ≤ 2 }
{
    let begun = write_program(&mut streams.output, loaded);
    let told = put(&mut streams.output, begun, rows);
    let written = flush_after(&mut streams.output, told);
    ended(written, &mut streams.errors)
}

/// Writes the size of a program, and its maps.
fn write_program<W: Write>(writer: &mut Counted<W>, loaded: &Loaded) -> Result<(), WriteFault>
    ensures { Writes W.contents writer.old writer.new result (program_text loaded.now) }
{
    let sized = put_size(&loaded.program, writer);
    put_maps(writer, sized, loaded)
}

/// Writes a line of each map of a program.
fn put_maps<W: Write>(
    writer: &mut Counted<W>,
    so_far: Result<(), WriteFault>,
    loaded: &Loaded,
) -> Result<(), WriteFault>
    ensures { WritesAfter W.contents writer.old so_far writer.new result (map_rows loaded.now) }
{
    let mut told = so_far;
    for number in 0..loaded.program.maps().len() {
        told = put_row(writer, told, loaded, number);
    }
    told
}

/// Writes the line of a map, if there is one of this number.
fn put_row<W: Write>(
    writer: &mut Counted<W>,
    so_far: Result<(), WriteFault>,
    loaded: &Loaded,
    number: usize,
) -> Result<(), WriteFault>
    requires { number ≤ 16 }
    ensures { WritesAfter W.contents writer.old so_far writer.new result (row_of loaded.now number) }
{
    match loaded.program.maps().shape(number) {
        Some(shape) => {
            let name = name_in(loaded.object.as_ref(), number);
            put_map(writer, so_far, number, shape, name)
        }
        None => put(writer, so_far, b""),
    }
}

/// The name of a map in the object that a program comes from; empty where there is none.
pub fn name_in(object: Option<&LinkedObject>, number: usize) -> &[u8]
    ensures { result.now ≡ name_in (lent object.entry) number }
{
    match object {
        Some(object) => match object.program.names.get(number) {
            Some(at) => short_at(object.sources.object(), *at),
            None => b"",
        },
        None => b"",
    }
}

/// Writes the line of a map: its number, its shape, the address of its first byte, and its name, if it
/// has one.
fn put_map<W: Write>(
    writer: &mut Counted<W>,
    so_far: Result<(), WriteFault>,
    number: usize,
    shape: MapShape,
    name: &[u8],
) -> Result<(), WriteFault>
    requires { number ≤ 16 }
    ensures { WritesAfter W.contents writer.old so_far writer.new result (map_row number shape name.now) }
{
    let size = u64::from(shape.value_size);
    let entries = u64::from(shape.entries);
    let address = MAP_BASE + MAP_STRIDE * number as u64;
    let pieces = [
        Piece::Text(b"map "),
        Piece::Decimal(number as u64),
        Piece::Text(b": "),
        Piece::Decimal(size),
        Piece::Text(b"x"),
        Piece::Decimal(entries),
        Piece::Text(b" at "),
        Piece::Hexadecimal(address),
    ];
    let begun = put_all(writer, so_far, &pieces);
    let named = put_named(writer, begun, name);
    put(writer, named, b"\n")
}

/// Writes a name behind a blank, if there is one.
fn put_named<W: Write>(
    writer: &mut Counted<W>,
    so_far: Result<(), WriteFault>,
    name: &[u8],
) -> Result<(), WriteFault>
    ensures { WritesAfter W.contents writer.old so_far writer.new result (behind_address name.now) }
{
    match name {
        [] => put(writer, so_far, b""),
        _ => {
            let begun = put(writer, so_far, b" ");
            put_shown(writer, begun, name)
        }
    }
}
