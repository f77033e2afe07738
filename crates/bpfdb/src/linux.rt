//! Linux's library of helpers, which is joined by itself where FILE lacks functions.
ghost use Rattle.std.specs.Prelude.{◌≡◌};
ghost use Rattle.bpfdb.specs.Contents.{contents_in};
ghost use Rattle.bpfdb.specs.Jobs.{links_by};
ghost use Rattle.bpfdb.specs.Kinds.{runs_two};
ghost use Rattle.bpfdb.specs.Linux.{DoesLack, Lacks, LacksIf, OtherLacks, is_joined, may_join};

use crate::job::{Bytes, job_of};
use crate::kind::{is_object, runs_two};
use bpf_load::{SourceKind, lacks_functions};
use bpfdb_cli::Plan;
use bpfdb_jobs::Job;
use bpfdb_options::Ask;
use std::alloc::Global;

/// What became of Linux's library.
#[derive(Clone, Copy)]
pub enum Linux {
    /// Nothing lacks functions, or it isn't wanted.
    Unneeded,
    /// It is the last of the objects with functions.
    Joined,
    /// Functions lack, and no library is known.
    Missing,
}

/// Whether FILE or the other program lacks functions that Linux's library may have, and it may be
/// joined by itself.
///
/// Takes the time of linking them.
pub fn lacks_linux(alloc: Global, plan: &Plan<'_>, bytes: &Bytes<'_>) -> bool
    ensures { DoesLack plan.now (contents_in bytes.now) result }
{
    let job = job_of(alloc, plan, bytes);
    lacks_if(alloc, may_join(plan, &job), &job)
}

/// Whether a job lacks functions, where the library may be joined.
fn lacks_if(alloc: Global, may_join: bool, job: &Job<'_>) -> bool
    ensures { LacksIf may_join job.now result }
{
    may_join && lacks(alloc, job)
}

/// Whether Linux's library may be joined by itself, where it is wanted.
fn may_join(plan: &Plan<'_>, job: &Job<'_>) -> bool
    ensures { result ≡ may_join plan.now job.now }
{
    !plan.target.no_linux && !is_joined(&job.ask) && links(&job.ask, job.target.kind)
}

/// Whether the object that would be linked is asked for.
fn is_joined(ask: &Ask<'_>) -> bool
    ensures { result ≡ is_joined ask.now }
{
    match ask {
        Ask::Link { is_joined } => *is_joined,
        _ => false,
    }
}

/// Whether FILE, which is of this kind, is linked for what is asked of it.
pub fn links(ask: &Ask<'_>, kind: SourceKind) -> bool
    ensures { result ≡ links_by ask.now kind }
{
    match ask {
        Ask::Link { .. } => true,
        _ => is_object(kind),
    }
}

/// Whether FILE lacks functions, or the other program does.
fn lacks(alloc: Global, job: &Job<'_>) -> bool
    ensures { Lacks job.now result }
{
    let own = lacks_functions(alloc, job.file, &job.target);
    let others = other_lacks(alloc, job);
    own || others
}

/// Whether the other program lacks functions, if there is one.
fn other_lacks(alloc: Global, job: &Job<'_>) -> bool
    ensures { OtherLacks (runs_two job.now) job.now.other job.now.target result }
{
    if !runs_two(job) {
        return false;
    }
    match job.other {
        Some(other) => lacks_functions(alloc, other, &job.target),
        None => false,
    }
}
