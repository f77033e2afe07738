//! Whether two runs end alike.
ghost use Rattle.std.specs.Prelude.{◌≡◌};
ghost use Rattle.bpf_diff.specs.Ends.{same_end as same_end_of, same_fault as same_fault_of, same_status as same_status_of};

use bpf_machine::{Cpu, Fault, Status};
use bpfdb_script::number_in;

/// Whether two machines stand at one slot, for one reason, with the same r0.
pub fn same_end(first: &Cpu, second: &Cpu) -> bool
    ensures { result ≡ same_end_of first.now second.now }
{
    same_status(first.status(), second.status())
        && (first.pc() == second.pc() && number_in(first, 0) == number_in(second, 0))
}

/// Whether two statuses are one.
pub fn same_status(one: Status, other: Status) -> bool
    ensures { result ≡ same_status_of one other }
{
    match (one, other) {
        (Status::Running, Status::Running) => true,
        (Status::Exited, Status::Exited) => true,
        (Status::Faulted(fault), Status::Faulted(why)) => same_fault(fault, why),
        _ => false,
    }
}

/// Whether two faults are one.
fn same_fault(one: Fault, other: Fault) -> bool
    ensures { result ≡ same_fault_of one other }
{
    match (one, other) {
        (Fault::Access { address }, Fault::Access { address: at }) => address == at,
        (Fault::Token { token }, Fault::Token { token: given }) => token == given,
        (Fault::Depth, Fault::Depth) => true,
        _ => false,
    }
}
