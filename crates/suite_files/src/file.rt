//! A file of tests whose sections name files, as one that names none.
ghost use Rattle.std.specs.Prelude.{◌≡◌, ◌++◌, ◌<◌, ℕ, List, IfOk, IfErr, IfSome, OnOk, get_or, length};
ghost use Rattle.suite_files.specs.Desks.{HasPaths, IsDesk};
ghost use Rattle.suite_files.specs.Refused.{AreFaulty, IsFilesFault, IsPieceFault, IsTooLong, files_fault};
ghost use Rattle.suite_files.specs.Replaced.{IsPut, IsReplaced, NameFew, ReplacesFirst, with_piece};
ghost use Rattle.suite_files.specs.Shelves.{paths_on};
ghost use Rattle.suite_files.specs.declared.file.Done.{Done};
ghost use Rattle.input_texts.specs.Pieces.{front, pieces};

use crate::fault::{FilesFault, NamedFault, PutFault};
use crate::place::Place;
use crate::put::put_piece;
use crate::shelf::Shelved;
use bpfdb_files::Opener;
use input_texts::{Piece, Word, front, head_of, pieces};
use std::alloc::{AllocError, Global};

/// The most bytes of a file of tests, with its files in it.
const MOST_BYTES: usize = 67_108_864;

/// What stands in place of a piece that asks for a program.
#[derive(Drop)]
struct Done<'a> {
    piece: &'a [u8],
    put: Vec<u8>,
}

/// What was read and linked so far.
#[derive(Drop)]
struct Desk<'a> {
    shelf: Vec<Shelved>,
    done: Vec<Done<'a>>,
}

/// Which of the pieces that were put is this one.
fn done_at(done: &[Done<'_>], piece: &[u8]) -> Option<usize>
    ensures { IfSome result (λ at. (at < length done.now)
        × ((d : Done) → (get_or done.now at d).piece.now ≡ piece.now)) }
{
    for at in 0..done.len() {
        if done[at].piece == piece {
            return Some(at);
        }
    }
    None
}

/// The line of a piece.
fn line_of(piece: &Piece<'_>) -> usize
    ensures { result ≡ piece.now.line }
{
    piece.line
}

/// The bytes of a piece.
fn text_of<'a>(piece: &Piece<'a>) -> &'a [u8]
    ensures { result.now ≡ piece.now.text }
{
    piece.text.bytes
}

/// What is told of a fault of a piece.
fn in_line(fault: PutFault, line: usize) -> FilesFault
    ensures { result ≡ files_fault line fault }
{
    match fault {
        PutFault::Named(fault) => FilesFault::Section(fault, line),
        PutFault::Link(kept) => FilesFault::Link(kept, line),
        PutFault::Memory => FilesFault::Memory,
    }
}

/// A text with more behind it, which isn't longer than a file of tests may be.
fn with_put(mut text: Vec<u8>, more: &[u8], line: usize) -> Result<Vec<u8>, FilesFault>
    ensures ok { IfOk result (λ all. all.items ≡ text.items ++ more.now) }
    ensures err { IfErr result (IsTooLong line (text.items ++ more.now)) }
{
    if more.len() > MOST_BYTES - text.len().min(MOST_BYTES) {
        return Err(FilesFault::Section(NamedFault::TooMuch, line));
    }
    match text.extend_from_slice(more) {
        Ok(()) => Ok(text),
        Err(_) => Err(FilesFault::Memory),
    }
}

/// A text, and behind it what stands in place of a piece, which is put.
fn with_new<'a, F: Opener>(
    alloc: Global,
    files: &F,
    place: &Place<'_>,
    piece: &Piece<'a>,
    desk: &mut Desk<'a>,
    text: Vec<u8>,
) -> Result<Vec<u8>, FilesFault>
    requires { IsDesk (F.bytes_at files.now) place.now desk.old }
    ensures ok { IfOk result (λ all. (put : List ℕ)
        × IsPut (F.bytes_at files.now) place.now piece.now.text put
        × (all.items ≡ text.items ++ put)) }
    ensures err { IfErr result (IsPieceFault (F.bytes_at files.now) place.now
        (paths_on desk.old.shelf.items) text.items piece.now) }
    ensures desk { OnOk result (HasPaths (F.bytes_at files.now) place.now
        (with_piece place.now (paths_on desk.old.shelf.items) piece.now.text) desk.new) }
{
    let line = line_of(piece);
    let bytes = text_of(piece);
    let put = match put_piece(alloc, files, place, bytes, &mut desk.shelf) {
        Ok(put) => put,
        Err(fault) => return Err(in_line(fault, line)),
    };
    let all = match with_put(text, put.as_slice(), line) {
        Ok(all) => all,
        Err(fault) => return Err(fault),
    };
    if !head_of(bytes).word.is(Word::Object) {
        return Ok(all);
    }
    let done = Done { piece: bytes, put };
    match desk.done.push(done) {
        Ok(()) => Ok(all),
        Err(_) => Err(FilesFault::Memory),
    }
}

/// A text, and behind it what stands in place of a piece.
fn with_piece<'a, F: Opener>(
    alloc: Global,
    files: &F,
    place: &Place<'_>,
    piece: &Piece<'a>,
    desk: &mut Desk<'a>,
    text: Vec<u8>,
) -> Result<Vec<u8>, FilesFault>
    requires { IsDesk (F.bytes_at files.now) place.now desk.old }
    ensures ok { IfOk result (λ all. (put : List ℕ)
        × IsPut (F.bytes_at files.now) place.now piece.now.text put
        × (all.items ≡ text.items ++ put)) }
    ensures err { IfErr result (IsPieceFault (F.bytes_at files.now) place.now
        (paths_on desk.old.shelf.items) text.items piece.now) }
    ensures desk { OnOk result (HasPaths (F.bytes_at files.now) place.now
        (with_piece place.now (paths_on desk.old.shelf.items) piece.now.text) desk.new) }
{
    match done_at(desk.done.as_slice(), piece.text.bytes) {
        Some(at) => {
            let line = line_of(piece);
            with_put(text, desk.done[at].put.as_slice(), line)
        }
        None => with_new(alloc, files, place, piece, desk, text),
    }
}

/// A text, and behind it what stands in place of all pieces.
fn with_pieces<'a, F: Opener>(
    alloc: Global,
    files: &F,
    place: &Place<'_>,
    pieces: &[Piece<'a>],
    begun: Vec<u8>,
) -> Result<Vec<u8>, FilesFault>
    ensures ok { IfOk result (λ all. ReplacesFirst (F.bytes_at files.now) place.now pieces.now
        begun.items (length pieces.now) all.items) }
    ensures few { OnOk result (NameFew place.now pieces.now) }
    ensures err { IfErr result (AreFaulty (F.bytes_at files.now) place.now pieces.now begun.items) }
{
    let mut desk = Desk {
        shelf: Vec::new(alloc),
        done: Vec::new(alloc),
    };
    let mut text = begun;
    for k in 0..pieces.len() {
        match with_piece(alloc, files, place, &pieces[k], &mut desk, text) {
            Ok(all) => text = all,
            Err(fault) => return Err(fault),
        }
    }
    Ok(text)
}

/// A file of tests in which each section that names files is replaced by sections of what these hold,
/// over the same lines: `-- object` by the words and the maps of its program, `-- mem-file` and
/// `-- packet` by the bytes of the context. Each file is read once, and sections that ask for the same
/// program word for word link it once. Beside the lengths of the files and of what comes out the time
/// grows with each section by the number of files and programs so far, among which its own is looked
/// for.
pub fn replaced<F: Opener>(
    alloc: Global,
    files: &F,
    place: &Place<'_>,
    text: &[u8],
) -> Result<Vec<u8>, FilesFault>
    ensures ok { IfOk result (λ all. IsReplaced (F.bytes_at files.now) place.now text.now all.items) }
    ensures err { IfErr result (IsFilesFault (F.bytes_at files.now) place.now text.now) }
{
    let Ok(found) = pieces(alloc, text) else {
        return Err(FilesFault::Memory);
    };
    let begun = match Vec::from_slice(alloc, front(text)) {
        Ok(begun) => begun,
        Err(_) => return Err(FilesFault::Memory),
    };
    match with_pieces(alloc, files, place, found.as_slice(), begun) {
        Ok(all) => Ok(all),
        Err(fault) => Err(fault),
    }
}
