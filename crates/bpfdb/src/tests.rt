//! The file of tests of a plan, whose sections may name files.
ghost use Rattle.std.specs.Prelude.{◌≡◌, option_map};
ghost use Rattle.bpfdb.specs.Files.{world_of};
ghost use Rattle.bpfdb.specs.Tests.{IsLibrary, IsPlaceOf, asks_tests, files_line, library_path, link_line, object_end};
ghost use Rattle.bpfdb_faults.specs.Streams.{Told, stream};
ghost use Rattle.counted_io.specs.Writing.{Writes, WritesAfter};

use crate::files::read_named;
use crate::host::Host;
use bpf_suite::put_numbered;
use bpfdb_faults::{JobFault, flush_after, put_object, tell};
use bpfdb_files::{FileKind, Opener};
use bpfdb_options::{Ask, TestAsk};
use counted_io::{Counted, Piece, WriteFault, put, put_all};
use input_texts::folder_of;
use std::alloc::Global;
use std::io::Write;
use suite_files::{FilesFault, KeptFault, NamedFault, Place};

/// What is asked of tests, if that is asked.
pub fn asks_tests<'a>(ask: &Ask<'a>) -> Option<TestAsk<'a>>
    ensures { result ≡ asks_tests ask.now }
{
    match ask {
        Ask::Test(ask) => Some(*ask),
        _ => None,
    }
}

/// Where names of files begin, and what is wanted of objects, with this library of Linux's.
pub fn place_of<'a>(file: &'a str, ask: &TestAsk<'_>, linux: Option<&'a [u8]>) -> Place<'a>
    ensures { IsPlaceOf file.now ask.now (option_map (λ library. library.now) linux.entry) result }
{
    Place {
        folder: folder_of(file.as_bytes()),
        anywhere: ask.anywhere,
        linux,
        lines: ask.is_tracefile,
    }
}

/// The path of Linux's library, where it may be joined by itself and one is known.
fn library_path<'a, F: Opener>(host: &Host<'a, F>) -> Option<&'a str>
    ensures { option_map (λ path. path.now) result ≡ library_path (world_of F.bytes_at host.now) }
{
    if host.wants_linux { host.linux } else { None }
}

/// Linux's library, where it may be joined by itself; none where it can't be read.
pub fn library_of<F: Opener>(alloc: Global, host: &Host<'_, F>) -> Option<Vec<u8>>
    ensures { IsLibrary (world_of F.bytes_at host.now) (option_map (λ library. library.items) result) }
{
    let path = library_path(host)?;
    match read_named(alloc, host.files, path, FileKind::Source) {
        Ok(library) => Some(library),
        Err(_) => None,
    }
}

/// A library, lent.
pub fn lent(library: &Option<Vec<u8>>) -> Option<&[u8]>
    ensures { option_map (λ bytes. bytes.now) result ≡ option_map (λ bytes. bytes.items) library.now }
{
    match library {
        Some(bytes) => Some(bytes.as_slice()),
        None => None,
    }
}

/// Writes which object has a fault, by the line of its section.
fn put_end<E: Write>(
    errors: &mut Counted<E>,
    so_far: Result<(), WriteFault>,
    index: Option<usize>,
    line: usize,
) -> Result<(), WriteFault>
    ensures { WritesAfter E.contents errors.old so_far errors.new result (object_end index line) }
{
    let line = line as u64;
    match index {
        None => {
            let pieces = [
                Piece::Text(b" (the object in line "),
                Piece::Decimal(line),
                Piece::Text(b")\n"),
            ];
            put_all(errors, so_far, &pieces)
        }
        Some(index) => {
            let pieces = [
                Piece::Text(b" (object "),
                Piece::Decimal((index as u64).saturating_add(1)),
                Piece::Text(b" with the one in line "),
                Piece::Decimal(line),
                Piece::Text(b")\n"),
            ];
            put_all(errors, so_far, &pieces)
        }
    }
}

/// Writes the line of a section's fault, and flushes.
fn tell_section<E: Write>(
    errors: &mut Counted<E>,
    fault: NamedFault,
    line: usize,
) -> Result<(), WriteFault>
    ensures { Writes E.contents errors.old errors.new result (files_line (FilesFault.Section fault line)) }
{
    let (number, text) = (fault.number(), fault.text());
    let at = Some(line);
    let said = put_numbered(errors, Ok(()), b"refused T", number, b" at line ", at, text);
    let ended = put(errors, said, b"\n");
    flush_after(errors, ended)
}

/// Writes the line of an object's fault, and flushes.
fn tell_link<E: Write>(
    errors: &mut Counted<E>,
    kept: &KeptFault,
    line: usize,
) -> Result<(), WriteFault>
    ensures { Writes E.contents errors.old errors.new result (link_line kept.now line) }
{
    let said = put_object(errors, Ok(()), &kept.fault, kept.name.as_slice(), b"");
    let ended = put_end(errors, said, kept.index, line);
    flush_after(errors, ended)
}

/// Writes the line of a fault, and flushes.
fn tell_fault<E: Write>(errors: &mut Counted<E>, fault: &FilesFault) -> Result<(), WriteFault>
    ensures { Writes E.contents errors.old errors.new result (files_line fault.now) }
{
    match fault {
        FilesFault::Section(fault, line) => tell_section(errors, *fault, *line),
        FilesFault::Link(kept, line) => tell_link(errors, kept, *line),
        FilesFault::Memory => tell(errors, &JobFault::Memory),
    }
}

/// Tells why no tests are run of a file whose sections name files. Answers the exit status, 2.
pub fn refuse_tests<E: Write>(fault: &FilesFault, errors: &mut Counted<E>) -> u8
    ensures value { result ≡ 2 }
    ensures told { Told (stream E.contents errors.old errors.new) (files_line fault.now) }
{
    match tell_fault(errors, fault) {
        Ok(()) => 2,
        Err(WriteFault) => 2,
    }
}
