//! What stands in place of a piece.
ghost use Rattle.std.specs.Prelude.{◌≡◌, ◌++◌, ◌<◌, [], IfOk, IfErr, OnOk, get_or, length};
ghost use Rattle.suite_files.specs.Asks.{Asks};
ghost use Rattle.bpf_load.specs.Targets.{contents};
ghost use Rattle.suite_files.specs.Refused.{IsAskedFault, IsCopyFault, IsMemoryFault, IsOthersFault, IsPacketFault, IsProgramFault, IsPutFault, put_fault};
ghost use Rattle.suite_files.specs.Replaced.{IsAskedProgram, IsMemoryPut, IsPacketPut, IsProgramPut, IsPut, ReadFirst, capture_name, packet_number, program_text, with_objects, with_piece, with_piece_by};
ghost use Rattle.suite_files.specs.Shelves.{AreRead, IsFile, IsShelf, path_of, paths_on, with_names, with_path};
ghost use Rattle.input_texts.specs.Heads.{head_of};
ghost use Rattle.input_texts.specs.Options.{is_empty};
ghost use Rattle.input_texts.specs.Puts.{feeds, memory_text};
ghost use Rattle.input_texts.specs.declared.word.Word.TheVariants as word;

use crate::asked::{Asked, asked_of};
use crate::fault::{NamedFault, PutFault};
use crate::joining::completed;
use crate::made::{Made, made_of, target_of};
use crate::maps::maps_text;
use crate::place::Place;
use crate::shelf::{NameFault, Shelved, shelve};
use bpfdb_files::Opener;
use counted_io::{find_blank, natural, trim_start};
use input_texts::{Word, feeds, head_of, is_empty, memory_text, with_lines, words_text};
use std::alloc::{AllocError, Global};

/// Why there is nothing in place of a piece whose file isn't there.
fn fault_of(fault: NameFault) -> PutFault
    ensures { result ≡ put_fault fault }
{
    match fault {
        NameFault::Named(fault) => PutFault::Named(fault),
        NameFault::Memory => PutFault::Memory,
    }
}

/// A text with the line feeds of a piece behind it.
fn with_feeds(alloc: Global, mut text: Vec<u8>, piece: &[u8]) -> Result<Vec<u8>, AllocError>
    ensures { IfOk result (λ all. all.items ≡ text.items ++ feeds piece.now) }
{
    let lines = feeds(alloc, piece)?;
    match text.extend_from_slice(lines.as_slice()) {
        Ok(()) => Ok(text),
        Err(_) => Err(AllocError),
    }
}

/// A section with bytes of the context, in place of a piece.
fn memory_put(alloc: Global, piece: &[u8], bytes: &[u8]) -> Result<Vec<u8>, AllocError>
    ensures { IfOk result (λ put. put.items ≡ memory_text bytes.now ++ feeds piece.now) }
{
    let text = memory_text(alloc, bytes)?;
    with_feeds(alloc, text, piece)
}

/// A program, its maps and the table of its lines, in place of a piece.
fn program_put(alloc: Global, piece: &[u8], made: &Made) -> Result<Vec<u8>, AllocError>
    ensures { IfOk result (λ put. put.items ≡ program_text made.now ++ feeds piece.now) }
{
    let program = &made.loaded.program;
    let maps = maps_text(alloc, program.shapes.as_slice())?;
    let words = words_text(alloc, program.words.as_slice(), maps.as_slice())?;
    let text = with_lines(alloc, words, made.table.as_slice())?;
    with_feeds(alloc, text, piece)
}

/// What the head of a piece says behind its word.
fn value_of(piece: &[u8]) -> &[u8]
    ensures { result.now ≡ (head_of piece.now).value }
{
    head_of(piece).value.bytes
}

/// In place of a piece the bytes of the file that it names.
fn put_memory<F: Opener>(
    alloc: Global,
    files: &F,
    place: &Place<'_>,
    piece: &[u8],
    shelf: &mut Vec<Shelved>,
) -> Result<Vec<u8>, PutFault>
    requires { AreRead (F.bytes_at files.now) shelf.old.items }
    ensures ok { IfOk result (λ put. IsMemoryPut (F.bytes_at files.now) place.now piece.now put.items) }
    ensures err { IfErr result (IsMemoryFault (is_empty piece.now) place.now (paths_on shelf.old.items)
        (head_of piece.now).value) }
    ensures shelf { OnOk result (IsShelf (F.bytes_at files.now)
        (with_piece_by word.MemFile place.now (paths_on shelf.old.items) piece.now) shelf.new.items) }
{
    if !is_empty(piece) {
        return Err(PutFault::Named(NamedFault::Malformed));
    }
    let name = value_of(piece);
    match shelve(alloc, files, place, name, shelf) {
        Ok(at) => match memory_put(alloc, piece, shelf[at].bytes.as_slice()) {
            Ok(put) => Ok(put),
            Err(_) => Err(PutFault::Memory),
        },
        Err(fault) => Err(fault_of(fault)),
    }
}

/// The name of a packet's capture.
fn capture_name(said: &[u8]) -> &[u8]
    ensures { result.now ≡ capture_name said.now }
{
    &said[..find_blank(said)]
}

/// The number of a packet, behind the name of its capture.
fn packet_number(said: &[u8]) -> Option<u64>
    ensures { result ≡ packet_number said.now }
{
    natural(trim_start(&said[find_blank(said)..]))?.to_u64()
}

/// In place of a piece the bytes of the packet that it names.
fn put_packet<F: Opener>(
    alloc: Global,
    files: &F,
    place: &Place<'_>,
    piece: &[u8],
    shelf: &mut Vec<Shelved>,
) -> Result<Vec<u8>, PutFault>
    requires { AreRead (F.bytes_at files.now) shelf.old.items }
    ensures ok { IfOk result (λ put. IsPacketPut (F.bytes_at files.now) place.now piece.now put.items) }
    ensures err { IfErr result (IsPacketFault (is_empty piece.now) (F.bytes_at files.now) place.now
        (paths_on shelf.old.items) (head_of piece.now).value) }
    ensures shelf { OnOk result (IsShelf (F.bytes_at files.now)
        (with_piece_by word.Packet place.now (paths_on shelf.old.items) piece.now) shelf.new.items) }
{
    if !is_empty(piece) {
        return Err(PutFault::Named(NamedFault::Malformed));
    }
    let said = value_of(piece);
    let Some(number) = packet_number(said) else {
        return Err(PutFault::Named(NamedFault::Malformed));
    };
    let name = capture_name(said);
    match shelve(alloc, files, place, name, shelf) {
        Ok(at) => match shelf[at].packet(number) {
            Some(bytes) => match memory_put(alloc, piece, bytes) {
                Ok(put) => Ok(put),
                Err(_) => Err(PutFault::Memory),
            },
            None => Err(PutFault::Named(NamedFault::NoPacket)),
        },
        Err(fault) => Err(fault_of(fault)),
    }
}

/// The bytes of the file of a name, which stay where they are read.
fn copied<F: Opener>(
    alloc: Global,
    files: &F,
    place: &Place<'_>,
    name: &[u8],
    shelf: &mut Vec<Shelved>,
) -> Result<Vec<u8>, PutFault>
    requires { AreRead (F.bytes_at files.now) shelf.old.items }
    ensures ok { IfOk result (λ bytes. IsFile (F.bytes_at files.now) place.now name.now bytes.items) }
    ensures err { IfErr result (IsCopyFault place.now (paths_on shelf.old.items) name.now) }
    ensures shelf { OnOk result (IsShelf (F.bytes_at files.now)
        (with_path (paths_on shelf.old.items) (path_of place.now name.now)) shelf.new.items) }
{
    match shelve(alloc, files, place, name, shelf) {
        Ok(at) => match Vec::from_slice(alloc, shelf[at].bytes.as_slice()) {
            Ok(bytes) => Ok(bytes),
            Err(_) => Err(PutFault::Memory),
        },
        Err(fault) => Err(fault_of(fault)),
    }
}

/// The name of the object that is asked for.
fn object_of<'a>(asked: &Asked<'a>) -> &'a [u8]
    ensures { result.now ≡ asked.now.object }
{
    asked.object.bytes
}

/// The name of one of the objects that are joined to one.
fn with_at<'a>(asked: &Asked<'a>, k: usize) -> &'a [u8]
    requires { k < length asked.now.with.items }
    ensures { result.now ≡ get_or asked.now.with.items k [] }
{
    asked.with[k].bytes
}

/// The bytes of the objects that are joined to one.
fn others_of<F: Opener>(
    alloc: Global,
    files: &F,
    place: &Place<'_>,
    asked: &Asked<'_>,
    shelf: &mut Vec<Shelved>,
) -> Result<Vec<Vec<u8>>, PutFault>
    requires { AreRead (F.bytes_at files.now) shelf.old.items }
    ensures ok { IfOk result (λ all. ReadFirst (F.bytes_at files.now) place.now asked.now.with.items
        (length asked.now.with.items) (contents all.items)) }
    ensures err { IfErr result (IsOthersFault (F.bytes_at files.now) place.now
        (paths_on shelf.old.items) asked.now) }
    ensures shelf { OnOk result (IsShelf (F.bytes_at files.now)
        (with_names place.now (paths_on shelf.old.items) asked.now.with.items
        (length asked.now.with.items)) shelf.new.items) }
{
    let mut all = Vec::new(alloc);
    let names = asked.with.as_slice();
    for k in 0..names.len() {
        let name = with_at(asked, k);
        let bytes = match copied(alloc, files, place, name, shelf) {
            Ok(bytes) => bytes,
            Err(fault) => return Err(fault),
        };
        match all.push(bytes) {
            Ok(()) => {}
            Err(_) => return Err(PutFault::Memory),
        }
    }
    Ok(all)
}

/// The program that is asked for, and its table.
fn asked_program<F: Opener>(
    alloc: Global,
    files: &F,
    place: &Place<'_>,
    asked: &Asked<'_>,
    shelf: &mut Vec<Shelved>,
) -> Result<Made, PutFault>
    requires { AreRead (F.bytes_at files.now) shelf.old.items }
    ensures ok { IfOk result (IsAskedProgram (F.bytes_at files.now) place.now asked.now) }
    ensures err { IfErr result (IsAskedFault (F.bytes_at files.now) place.now
        (paths_on shelf.old.items) asked.now) }
    ensures shelf { OnOk result (IsShelf (F.bytes_at files.now)
        (with_objects place.now (paths_on shelf.old.items) asked.now.with.items
        asked.now.object) shelf.new.items) }
{
    let others = match others_of(alloc, files, place, asked, shelf) {
        Ok(others) => others,
        Err(fault) => return Err(fault),
    };
    let name = object_of(asked);
    let at = match shelve(alloc, files, place, name, shelf) {
        Ok(at) => at,
        Err(fault) => return Err(fault_of(fault)),
    };
    let object = shelf[at].bytes.as_slice();
    let all = match completed(alloc, place.linux, asked, object, others) {
        Ok(all) => all,
        Err(_) => return Err(PutFault::Memory),
    };
    let target = target_of(alloc, asked, object, all.as_slice());
    match made_of(alloc, place.lines, &target, object) {
        Ok(made) => Ok(made),
        Err(fault) => Err(fault),
    }
}

/// In place of a piece the program that is asked for.
fn put_asked<F: Opener>(
    alloc: Global,
    files: &F,
    place: &Place<'_>,
    piece: &[u8],
    asked: &Asked<'_>,
    shelf: &mut Vec<Shelved>,
) -> Result<Vec<u8>, PutFault>
    requires asked { Asks piece.now asked.now }
    requires read { AreRead (F.bytes_at files.now) shelf.old.items }
    ensures ok { IfOk result (λ put. IsProgramPut (F.bytes_at files.now) place.now piece.now put.items) }
    ensures err { IfErr result (IsProgramFault (F.bytes_at files.now) place.now
        (paths_on shelf.old.items) piece.now) }
    ensures shelf { OnOk result (IsShelf (F.bytes_at files.now)
        (with_piece_by word.Object place.now (paths_on shelf.old.items) piece.now) shelf.new.items) }
{
    match asked_program(alloc, files, place, asked, shelf) {
        Ok(made) => match program_put(alloc, piece, &made) {
            Ok(put) => Ok(put),
            Err(_) => Err(PutFault::Memory),
        },
        Err(fault) => Err(fault),
    }
}

/// In place of a piece the program that it asks for.
fn put_program<F: Opener>(
    alloc: Global,
    files: &F,
    place: &Place<'_>,
    piece: &[u8],
    shelf: &mut Vec<Shelved>,
) -> Result<Vec<u8>, PutFault>
    requires { AreRead (F.bytes_at files.now) shelf.old.items }
    ensures ok { IfOk result (λ put. IsProgramPut (F.bytes_at files.now) place.now piece.now put.items) }
    ensures err { IfErr result (IsProgramFault (F.bytes_at files.now) place.now
        (paths_on shelf.old.items) piece.now) }
    ensures shelf { OnOk result (IsShelf (F.bytes_at files.now)
        (with_piece_by word.Object place.now (paths_on shelf.old.items) piece.now) shelf.new.items) }
{
    match asked_of(alloc, piece) {
        Ok(Some(asked)) => put_asked(alloc, files, place, piece, &asked, shelf),
        Ok(None) => Err(PutFault::Named(NamedFault::Malformed)),
        Err(_) => Err(PutFault::Memory),
    }
}

/// What stands in place of a piece: itself where it names no file.
pub fn put_piece<F: Opener>(
    alloc: Global,
    files: &F,
    place: &Place<'_>,
    piece: &[u8],
    shelf: &mut Vec<Shelved>,
) -> Result<Vec<u8>, PutFault>
    requires { AreRead (F.bytes_at files.now) shelf.old.items }
    ensures ok { IfOk result (λ put. IsPut (F.bytes_at files.now) place.now piece.now put.items) }
    ensures err { IfErr result (IsPutFault (F.bytes_at files.now) place.now (paths_on shelf.old.items)
        piece.now) }
    ensures shelf { OnOk result (IsShelf (F.bytes_at files.now)
        (with_piece place.now (paths_on shelf.old.items) piece.now) shelf.new.items) }
{
    match head_of(piece).word {
        Word::Object => put_program(alloc, files, place, piece, shelf),
        Word::MemFile => put_memory(alloc, files, place, piece, shelf),
        Word::Packet => put_packet(alloc, files, place, piece, shelf),
        _ => match Vec::from_slice(alloc, piece) {
            Ok(put) => Ok(put),
            Err(_) => Err(PutFault::Memory),
        },
    }
}
