//! The file of `-o`: what takes an output in place of standard output.
ghost use Rattle.std.specs.Prelude.{◌≡◌, ◌≤◌, None};
ghost use Rattle.bpfdb.specs.Files.{world_of};
ghost use Rattle.bpfdb.specs.Outputs.{DoesForFile, EndsForFile};
ghost use Rattle.bpfdb_faults.specs.Streams.{stream};
ghost use Rattle.bpfdb_limits.specs.Limits.{IsLimit};

use crate::doing::do_plan;
use crate::host::Host;
use bpfdb_cli::Plan;
use bpfdb_faults::{JobFault, give_up, told_as, write_out};
use bpfdb_files::Opener;
use bpfdb_jobs::Streams;
use counted_io::{Counted, WriteFault};
use std::alloc::Global;
use std::fs::File;
use std::io::{Read, Write};
use std::{fs, io};

/// A file of the system that is made, in place of what its path named, when the first byte comes.
#[derive(Drop)]
pub struct LateFile<'a> {
    rt: &'a HostRuntime,
    path: &'a str,
    file: Option<File>,
}

impl<'a> LateFile<'a> {
    /// The file of this path, which isn't made yet.
    pub fn new(rt: &'a HostRuntime, path: &'a str) -> LateFile<'a>
        ensures path { result.path.now ≡ path.now }
        ensures file { result.file ≡ None }
    {
        LateFile {
            rt,
            path,
            file: None,
        }
    }

    /// Makes the file, if it isn't made yet.
    fn make(&mut self) -> io::Result<()> {
        if self.file.is_none() {
            self.file = Some(fs::create(self.rt, self.path)?);
        }
        Ok(())
    }
}

impl<'a> Write for LateFile<'a> {
    fn write(&mut self, buf: &[u8]) -> io::Result<usize> {
        self.make()?;
        match &mut self.file {
            Some(file) => file.write(buf),
            None => Ok(0),
        }
    }

    fn flush(&mut self) -> io::Result<()> {
        Ok(())
    }
}

/// Does a plan whose output a file of this path takes, over writers in memory: the file gets it once
/// the job has ended with status 0, and else nothing.
pub fn do_for_file<'a, F: Opener, R: Read, W: Write, E: Write>(
    alloc: Global,
    host: &Host<'a, F>,
    plan: &Plan<'a>,
    path: &str,
    reader: &mut Counted<R>,
    file: &mut Counted<W>,
    errors: &mut Counted<E>,
) -> u8
    requires limit { IsLimit plan.now.options.limit }
    ensures does { DoesForFile (world_of F.bytes_at host.now) plan.now path.now
        (stream R.remaining reader.old reader.new) (stream W.contents file.old file.new)
        (stream E.contents errors.old errors.new) result }
    ensures status { result ≤ 2 }
{
    let mut memory = Streams {
        output: Counted::new(Vec::new(alloc)),
        errors: Counted::new(Vec::new(alloc)),
    };
    let status = do_plan(alloc, host, plan, reader, &mut memory);
    if memory.output.failures() > 0 || memory.errors.failures() > 0 {
        return give_up(errors, &JobFault::Memory);
    }
    let out = memory.output.into_inner();
    let told = memory.errors.into_inner();
    end_for_file(path, out.as_slice(), told.as_slice(), status, file, errors)
}

/// Writes an output to the file of this path where the status is 0, and then what was told on standard
/// error. Answers the exit status.
fn end_for_file<W: Write, E: Write>(
    path: &str,
    output: &[u8],
    told: &[u8],
    status: u8,
    file: &mut Counted<W>,
    errors: &mut Counted<E>,
) -> u8
    ensures ends { EndsForFile path.now output.now told.now status (stream W.contents file.old file.new)
        (stream E.contents errors.old errors.new) result }
    ensures status { status ≤ 2 → result ≤ 2 }
{
    if status != 0 {
        return told_as(write_out(errors, told), status);
    }
    match write_out(file, output) {
        Ok(()) => told_as(write_out(errors, told), status),
        Err(WriteFault) => give_up(errors, &JobFault::Unwritable(path)),
    }
}
