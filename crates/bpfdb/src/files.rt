//! FILE, PATH and the other file: files by their names.
ghost use Rattle.std.specs.Prelude.{◌≡◌, [], ◌∷◌, ◌++◌, IfErr, IfOk, IfSome, Some, true, length};
ghost use Rattle.bpfdb.specs.declared.linux.Linux.TheVariants.{Joined};
ghost use Rattle.bpfdb_faults.specs.declared.fault.JobFault.TheVariants.{Memory};
ghost use Rattle.bpfdb.specs.Contents.{contents_in};
ghost use Rattle.bpfdb.specs.Files.{AreGiven, AreRead, GivesFirst, GivesNamed, IsFileOf, HasParts, IsUnread, LacksIn, Names, NamesGiven, NamesOne, context_kind, is_whole, kind_of, read_of, world_of};
ghost use Rattle.bpf_load.specs.Targets.{contents, texts};
ghost use Rattle.bpfdb_files.specs.Reading.{Gives};

use crate::host::Host;
use crate::job::Bytes;
use crate::kind::source_kind;
use crate::linux::{Linux, lacks_linux};
use crate::parts::parts_for;
use bpf_load::SourceKind;
use bpfdb_cli::Plan;
use bpfdb_faults::JobFault;
use bpfdb_files::{FileKind, FirstFault, Opener, SOURCE_BYTES, read_kind};
use bpfdb_options::Ask;
use counted_io::Counted;
use std::alloc::Global;

/// What was read of the files of a plan.
#[derive(Drop)]
pub struct FileContents {
    /// The bytes of FILE.
    pub file: Vec<u8>,
    /// Those of PATH.
    pub context: Vec<u8>,
    /// Those of the other file; none where there isn't one.
    pub other: Vec<u8>,
    /// Those of the objects with functions.
    pub with: Vec<Vec<u8>>,
    /// What became of Linux's library.
    pub linux: Linux,
}

impl FileContents {
    /// These bytes, lent.
    pub fn bytes(&self) -> Bytes<'_>
        ensures { contents_in result ≡ read_of self.now }
    {
        Bytes {
            file: self.file.as_slice(),
            context: self.context.as_slice(),
            other: self.other.as_slice(),
            with: self.with.as_slice(),
            linux: self.linux,
        }
    }
}

/// The bytes of the files of a plan: FILE is read before PATH is opened, that before the other one,
/// that before the objects with functions, and those before Linux's library, where it is needed.
pub fn read_all<'a, F: Opener>(
    alloc: Global,
    host: &Host<'a, F>,
    plan: &Plan<'a>,
) -> Result<FileContents, JobFault<'a>>
    ensures ok { IfOk result (λ read. AreRead (world_of F.bytes_at host.now) plan.now (read_of read)) }
    ensures err { IfErr result (IsUnread (world_of F.bytes_at host.now) plan.now) }
{
    let file = match read_file(alloc, host.files, plan) {
        Ok(file) => file,
        Err(fault) => return Err(fault),
    };
    let context = match read_context(alloc, host.files, plan) {
        Ok(context) => context,
        Err(fault) => return Err(fault),
    };
    let other = match read_given(alloc, host.files, plan.other, FileKind::Source) {
        Ok(other) => other,
        Err(fault) => return Err(fault),
    };
    let with = match read_each(
        alloc,
        host.files,
        plan.target.with.as_slice(),
        FileKind::Source,
    ) {
        Ok(with) => with,
        Err(fault) => return Err(fault),
    };
    let given = FileContents {
        file,
        context,
        other,
        with,
        linux: Linux::Unneeded,
    };
    completed(alloc, host, plan, given)
}

/// What was read, and Linux's library behind the objects with functions where it is needed and there
/// is one.
fn completed<'a, F: Opener>(
    alloc: Global,
    host: &Host<'a, F>,
    plan: &Plan<'a>,
    given: FileContents,
) -> Result<FileContents, JobFault<'a>>
    requires { AreGiven (F.bytes_at host.now.files.now) plan.now (read_of given) }
    ensures ok { IfOk result (λ read. AreRead (world_of F.bytes_at host.now) plan.now (read_of read)) }
    ensures err { IfErr result (IsUnread (world_of F.bytes_at host.now) plan.now) }
{
    if !host.wants_linux || !lacks_linux(alloc, plan, &given.bytes()) {
        return Ok(given);
    }
    match known_parts(alloc, host, plan, &given) {
        Some(parts) => with_parts(given, parts),
        None => with_whole(alloc, host, plan, given),
    }
}

/// The parts of Linux's library that are joined, where they are known and can be read.
fn known_parts<'a, F: Opener>(
    alloc: Global,
    host: &Host<'a, F>,
    plan: &Plan<'a>,
    given: &FileContents,
) -> Option<Vec<Vec<u8>>>
    ensures { IfSome result (λ parts. HasParts (world_of F.bytes_at host.now) plan.now
        (read_of given.now) (contents parts.items)) }
{
    match host.parts {
        Some(folder) => parts_for(alloc, host.files, folder, plan, &given.bytes()),
        None => None,
    }
}

/// What was read, which lacks Linux's library, with all of it behind the objects with functions, where
/// there is one.
fn with_whole<'a, F: Opener>(
    alloc: Global,
    host: &Host<'a, F>,
    plan: &Plan<'a>,
    given: FileContents,
) -> Result<FileContents, JobFault<'a>>
    requires given { AreGiven (F.bytes_at host.now.files.now) plan.now (read_of given) }
    requires lacks { LacksIn (world_of F.bytes_at host.now) plan.now (read_of given) true }
    ensures ok { IfOk result (λ read. AreRead (world_of F.bytes_at host.now) plan.now (read_of read)) }
    ensures err { IfErr result (IsUnread (world_of F.bytes_at host.now) plan.now) }
{
    let Some(path) = host.linux else {
        return Ok(FileContents {
            linux: Linux::Missing,
            ..given
        });
    };
    match read_named(alloc, host.files, path, FileKind::Source) {
        Ok(library) => with_library(given, library),
        Err(fault) => Err(fault),
    }
}

/// What was read, with a library behind the objects with functions.
fn with_library<'a>(given: FileContents, library: Vec<u8>) -> Result<FileContents, JobFault<'a>>
    ensures ok { IfOk result (λ read. read_of read
        ≡ record (read_of given) { with = (read_of given).with ++ library.items ∷ []; linux = Joined }) }
    ensures err { IfErr result (λ fault. fault ≡ Memory) }
{
    let mut with = given.with;
    match with.push(library) {
        Ok(()) => Ok(FileContents {
            file: given.file,
            context: given.context,
            other: given.other,
            with,
            linux: Linux::Joined,
        }),
        Err(_) => Err(JobFault::Memory),
    }
}

/// What was read, with the parts of a library behind the objects with functions.
fn with_parts<'a>(given: FileContents, parts: Vec<Vec<u8>>) -> Result<FileContents, JobFault<'a>>
    ensures ok { IfOk result (λ read. read_of read ≡ record (read_of given) {
      with = (read_of given).with ++ contents parts.items;
      linux = Joined;
    }) }
    ensures err { IfErr result (λ fault. fault ≡ Memory) }
{
    match with_others(given.with, parts) {
        Some(with) => Ok(FileContents {
            file: given.file,
            context: given.context,
            other: given.other,
            with,
            linux: Linux::Joined,
        }),
        None => Err(JobFault::Memory),
    }
}

/// Objects with others behind them; None where memory ran out.
fn with_others(mut objects: Vec<Vec<u8>>, mut others: Vec<Vec<u8>>) -> Option<Vec<Vec<u8>>>
    ensures { IfSome result (λ all. contents all.items ≡ contents objects.items ++ contents others.items) }
{
    match objects.append(&mut others) {
        Ok(()) => Some(objects),
        Err(_) => None,
    }
}

/// What FILE is read as: a listing for `asm`, an object for `link`, one of these for `lines`, and each
/// where the plan says so; a file of tests for `test`; a program's words for `batch`, and where the
/// plan says so; and else what may be each.
pub fn kind_of(plan: &Plan<'_>) -> FileKind
    ensures { result ≡ kind_of plan.now }
{
    match &plan.ask {
        Ask::Asm => FileKind::Source,
        Ask::Lines => FileKind::Source,
        Ask::Link { .. } => FileKind::Source,
        Ask::Test(_) => FileKind::Source,
        Ask::Batch => FileKind::Program,
        _ => {
            if plan.target.is_listing || plan.target.is_object {
                FileKind::Source
            } else if plan.target.is_words {
                FileKind::Program
            } else {
                FileKind::Any
            }
        }
    }
}

/// The bytes of FILE. What turns out to be a listing or an object can't be read where it is too long
/// for one.
fn read_file<'a, F: Opener>(
    alloc: Global,
    files: &F,
    plan: &Plan<'a>,
) -> Result<Vec<u8>, JobFault<'a>>
    ensures ok { IfOk result (λ b. IsFileOf (F.bytes_at files.now) plan.now b.items) }
    ensures err { IfErr result (Names plan.now.file.now) }
{
    let bytes = match read_named(alloc, files, plan.file, kind_of(plan)) {
        Ok(bytes) => bytes,
        Err(fault) => return Err(fault),
    };
    let kind = source_kind(plan, plan.file.as_bytes(), bytes.as_slice());
    if is_whole(kind, bytes.as_slice()) {
        Ok(bytes)
    } else {
        Err(JobFault::Unreadable(plan.file))
    }
}

/// Whether a file isn't too long for what it is; of words the checker says that.
fn is_whole(kind: SourceKind, bytes: &[u8]) -> bool
    ensures { result ≡ is_whole kind bytes.now }
{
    match kind {
        SourceKind::Words => true,
        _ => bytes.len() <= SOURCE_BYTES,
    }
}

/// The bytes of the file of a path, read as one of a kind. One that is too long for its kind can't be
/// read.
pub fn read_named<'a, F: Opener>(
    alloc: Global,
    files: &F,
    path: &'a str,
    kind: FileKind,
) -> Result<Vec<u8>, JobFault<'a>>
    ensures ok { IfOk result (λ b. Gives kind (F.bytes_at files.now path.now) (Some b.items)) }
    ensures err { IfErr result (Names path.now) }
{
    let Some(file) = files.open(path) else {
        return Err(JobFault::Unreadable(path));
    };
    let mut reader = Counted::new(file);
    match read_kind(alloc, &mut reader, kind) {
        Ok(Some(bytes)) => Ok(bytes),
        Ok(None) => Err(JobFault::Unreadable(path)),
        Err(fault) => Err(fault_of(fault, path)),
    }
}

/// The bytes of the file of a path that may not be there, read as one of a kind: where there is no
/// path there are none.
fn read_given<'a, F: Opener>(
    alloc: Global,
    files: &F,
    path: Option<&'a str>,
    kind: FileKind,
) -> Result<Vec<u8>, JobFault<'a>>
    ensures ok { IfOk result (λ b. GivesNamed (F.bytes_at files.now) kind path.entry b.items) }
    ensures err { IfErr result (NamesGiven path.entry) }
{
    match path {
        Some(path) => read_named(alloc, files, path, kind),
        None => Ok(Vec::new(alloc)),
    }
}

/// The bytes of PATH: those of a context, or of a capture, of which a packet is asked for.
fn read_context<'a, F: Opener>(
    alloc: Global,
    files: &F,
    plan: &Plan<'a>,
) -> Result<Vec<u8>, JobFault<'a>>
    ensures ok { IfOk result (λ b. GivesNamed (F.bytes_at files.now) (context_kind plan.now) plan.now.memory b.items) }
    ensures err { IfErr result (NamesGiven plan.now.memory) }
{
    match plan.packet {
        Some(_) => read_given(alloc, files, plan.memory, FileKind::Source),
        None => read_given(alloc, files, plan.memory, FileKind::Context),
    }
}

/// The bytes of the files of several paths, read as ones of a kind.
fn read_each<'a, F: Opener>(
    alloc: Global,
    files: &F,
    paths: &[&'a str],
    kind: FileKind,
) -> Result<Vec<Vec<u8>>, JobFault<'a>>
    ensures ok { IfOk result (λ all. GivesFirst (F.bytes_at files.now) kind (texts paths.now)
        (length paths.now) (contents all.items)) }
    ensures err { IfErr result (NamesOne (F.bytes_at files.now) kind (texts paths.now)) }
{
    let mut all = Vec::new(alloc);
    for k in 0..paths.len() {
        let bytes = match read_named(alloc, files, paths[k], kind) {
            Ok(bytes) => bytes,
            Err(fault) => return Err(fault),
        };
        match all.push(bytes) {
            Ok(()) => {}
            Err(_) => return Err(JobFault::Memory),
        }
    }
    Ok(all)
}

/// Why a file's bytes aren't there.
fn fault_of<'a>(fault: FirstFault, path: &'a str) -> JobFault<'a>
    ensures { Names path.now result }
{
    match fault {
        FirstFault::Unread => JobFault::Unreadable(path),
        FirstFault::Memory => JobFault::Memory,
    }
}
