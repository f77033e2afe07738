//! Why a case isn't run, and why a batch breaks off.
use bpf_isa::LoadFault;
use bpf_machine::OpenFault;
use input_texts::CaseFault;

/// Why a case isn't run, in the order in which it is looked at.
#[derive(Clone, Copy)]
pub enum Refusal {
    /// Its line is no case.
    Line(CaseFault),
    /// The checker refused its words.
    Load(LoadFault),
    /// The machine can't be opened on its context.
    Open(OpenFault),
}

/// Why a batch wasn't read to its end.
#[derive(Clone, Copy)]
pub enum BatchFault {
    /// The input could not be read.
    Read,
    /// A write or a flush of the output failed.
    Write,
    /// Memory ran out.
    Memory,
}
