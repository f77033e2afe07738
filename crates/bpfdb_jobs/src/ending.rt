//! How a session ends that was served.
ghost use Rattle.std.specs.Prelude.{◌≡◌, ◌≤◌, IfErr, OnOk};
ghost use Rattle.bpfdb_faults.specs.Streams.{Told, stream};
ghost use Rattle.bpfdb_jobs.specs.Endings.{broken_line};

use bpf_session::RunFault;
use bpfdb_faults::{JobFault, give_up};
use counted_io::Counted;
use std::io::Write;

/// The exit status of a session that was served: 0, or 2 where a read or a write failed, which is
/// told.
pub fn session_ended<E: Write>(served: Result<(), RunFault>, errors: &mut Counted<E>) -> u8
    ensures ok { OnOk served ((errors.new ≡ errors.old) × (result ≡ 0)) }
    ensures err { IfErr served (λ why. Told (stream E.contents errors.old errors.new)
        (broken_line why) × (result ≡ 2)) }
    ensures status { result ≤ 2 }
{
    match served {
        Ok(()) => 0,
        Err(RunFault::Read) => give_up(errors, &JobFault::Input),
        Err(RunFault::Write) => give_up(errors, &JobFault::Output),
    }
}
