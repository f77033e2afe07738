//! What FILE is, and the other program, and whether that goes together with what is asked.
ghost use Rattle.std.specs.Prelude.{◌≡◌};
ghost use Rattle.bpfdb.specs.Kinds.{finds_kind, misfit_of, runs_two, source_kind};
ghost use Rattle.bpfdb_jobs.specs.Jobs.{links_first};

use bpf_load::{SourceKind, kind_of};
use bpfdb_cli::Plan;
use bpfdb_faults::KindFault;
use bpfdb_jobs::Job;
use bpfdb_options::Ask;

/// What a file of this name is, FILE or the other program: what is said, and else what its bytes show.
pub fn source_kind(plan: &Plan<'_>, name: &[u8], file: &[u8]) -> SourceKind
    ensures { result ≡ source_kind plan.now name.now file.now }
{
    let words = &plan.target;
    if words.is_object {
        SourceKind::Object
    } else if words.is_listing {
        SourceKind::Listing
    } else if words.is_words || !finds_kind(&plan.ask) {
        SourceKind::Words
    } else {
        kind_of(name, file)
    }
}

/// Whether it is found out what FILE is, for what is asked of it.
fn finds_kind(ask: &Ask<'_>) -> bool
    ensures { result ≡ finds_kind ask.now }
{
    match ask {
        Ask::Asm => false,
        Ask::Link { .. } => false,
        Ask::Test(_) => false,
        Ask::Batch => false,
        _ => true,
    }
}

/// Why what its files are doesn't go together with what a job asks, if it doesn't.
pub fn misfit_of(job: &Job<'_>) -> Option<KindFault>
    ensures { result ≡ misfit_of job.now }
{
    if is_object(job.target.kind) && job.target.maps.is_some() {
        return Some(KindFault::Maps);
    }
    if runs_two(job) && is_object(job.target.kind) != is_object(job.other_kind) {
        Some(KindFault::Programs)
    } else {
        None
    }
}

/// Whether a job runs two programs.
pub fn runs_two(job: &Job<'_>) -> bool
    ensures { result ≡ runs_two job.now }
{
    match &job.ask {
        Ask::Diff(diff) => !diff.other.is_context() && !diff.other.is_trace(),
        _ => false,
    }
}

/// Whether a file is an object.
pub fn is_object(kind: SourceKind) -> bool
    ensures { result ≡ links_first kind }
{
    match kind {
        SourceKind::Object => true,
        _ => false,
    }
}
