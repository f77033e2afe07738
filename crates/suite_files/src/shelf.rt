//! The files that were read, each once.
ghost use Rattle.std.specs.Prelude.{◌≡◌, ◌<◌, IfOk, IfErr, IfNone, IfSome, OnOk, Some, false, get_or, length, option_map};
ghost use Rattle.bpfdb_files.specs.Reading.{Gives};
ghost use Rattle.bpfdb_files.specs.declared.kinds.FileKind.TheVariants.{Source};
ghost use Rattle.suite_files.specs.Shelves.{AreRead, HoldsAt, IsNameFault, IsReadFault, IsShelf, IsShelved, IsUnread, Lacks, is_among, path_of, paths_on, with_path};
ghost use Rattle.suite_files.specs.declared.shelf.Shelved.{Shelved};
ghost use Rattle.input_texts.specs.Captures.{AreStarts, packet_in};

use crate::fault::NamedFault;
use crate::place::{Place, is_allowed, path_of};
use bpfdb_files::{FileKind, FirstFault, Opener, read_kind};
use counted_io::Counted;
use input_texts::{packet_at, packet_starts};
use std::alloc::Global;

/// The most files that a file of tests may name.
const MOST_FILES: usize = 4_096;

/// A file that was read.
#[derive(Drop)]
pub struct Shelved {
    pub path: Vec<u8>,
    pub bytes: Vec<u8>,
    /// Where its packets begin, if it is a capture.
    pub packets: Vec<usize>,
}

impl Shelved {
    /// The packet of this number, counted from 1. None where there is none, or the file is no
    /// capture in pcap's own format.
    pub fn packet(&self, number: u64) -> Option<&[u8]>
        requires { AreStarts self.now.bytes.items self.now.packets.items }
        ensures { option_map (λ bytes. bytes.now) result ≡ packet_in self.now.bytes.items number }
    {
        packet_at(self.bytes.as_slice(), self.packets.as_slice(), number)
    }
}

/// Why a file isn't there.
#[derive(Clone, Copy)]
pub enum NameFault {
    Named(NamedFault),
    Memory,
}

/// Which of the files has this path.
fn place_of(shelf: &[Shelved], path: &[u8]) -> Option<usize>
    ensures some { IfSome result (λ at. (at < length shelf.now)
        × ((d : Shelved) → (get_or shelf.now at d).path.items ≡ path.now)) }
    ensures none { IfNone result (is_among path.now (paths_on shelf.now) ≡ false) }
{
    for at in 0..shelf.len() {
        if shelf[at].path.as_slice() == path {
            return Some(at);
        }
    }
    None
}

/// The bytes of the file of a path.
fn bytes_of<F: Opener>(alloc: Global, files: &F, path: &[u8]) -> Result<Vec<u8>, NameFault>
    ensures ok { IfOk result (λ bytes. Gives Source (F.bytes_at files.now path.now) (Some bytes.items)) }
    ensures err { IfErr result IsUnread }
{
    let Ok(path) = str::from_utf8(path) else {
        return Err(NameFault::Named(NamedFault::Unread));
    };
    let Some(file) = files.open(path) else {
        return Err(NameFault::Named(NamedFault::Unread));
    };
    let mut reader = Counted::new(file);
    match read_kind(alloc, &mut reader, FileKind::Source) {
        Ok(Some(bytes)) => Ok(bytes),
        Ok(None) => Err(NameFault::Named(NamedFault::Unread)),
        Err(FirstFault::Unread) => Err(NameFault::Named(NamedFault::Unread)),
        Err(FirstFault::Memory) => Err(NameFault::Memory),
    }
}

/// Reads the file of a path that wasn't read before, and puts it behind the others.
fn add<F: Opener>(
    alloc: Global,
    files: &F,
    path: Vec<u8>,
    shelf: &mut Vec<Shelved>,
) -> Result<usize, NameFault>
    requires { Lacks (F.bytes_at files.now) shelf.old.items path.items }
    ensures at { IfOk result (HoldsAt (F.bytes_at files.now) shelf.new.items path.items) }
    ensures err { IfErr result (IsReadFault (paths_on shelf.old.items) path.items) }
    ensures shelf { OnOk result (IsShelf (F.bytes_at files.now)
        (with_path (paths_on shelf.old.items) path.items) shelf.new.items) }
{
    let at = shelf.len();
    if at >= MOST_FILES {
        return Err(NameFault::Named(NamedFault::TooMuch));
    }
    let bytes = match bytes_of(alloc, files, path.as_slice()) {
        Ok(bytes) => bytes,
        Err(fault) => return Err(fault),
    };
    let Ok(packets) = packet_starts(alloc, bytes.as_slice()) else {
        return Err(NameFault::Memory);
    };
    let file = Shelved {
        path,
        bytes,
        packets,
    };
    match shelf.push(file) {
        Ok(()) => Ok(at),
        Err(_) => Err(NameFault::Memory),
    }
}

/// Where the file of a name stands among those that were read; it is read if it wasn't.
pub fn shelve<F: Opener>(
    alloc: Global,
    files: &F,
    place: &Place<'_>,
    name: &[u8],
    shelf: &mut Vec<Shelved>,
) -> Result<usize, NameFault>
    requires { AreRead (F.bytes_at files.now) shelf.old.items }
    ensures at { IfOk result (IsShelved (F.bytes_at files.now) place.now name.now shelf.new.items) }
    ensures err { IfErr result (IsNameFault place.now (paths_on shelf.old.items) name.now) }
    ensures shelf { OnOk result (IsShelf (F.bytes_at files.now)
        (with_path (paths_on shelf.old.items) (path_of place.now name.now)) shelf.new.items) }
{
    if name.is_empty() {
        return Err(NameFault::Named(NamedFault::Malformed));
    }
    if !is_allowed(place, name) {
        return Err(NameFault::Named(NamedFault::Outside));
    }
    let path = match path_of(alloc, place, name) {
        Ok(path) => path,
        Err(_) => return Err(NameFault::Memory),
    };
    match place_of(shelf.as_slice(), path.as_slice()) {
        Some(at) => Ok(at),
        None => add(alloc, files, path, shelf),
    }
}
