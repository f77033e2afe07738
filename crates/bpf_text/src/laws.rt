//! Laws of listings.
ghost use Rattle.bpf_text.specs.Canonical.{canon};
ghost use Rattle.bpf_text.specs.Laws.{HaveOneMnemonic, HaveOneInsn, HaveOneSize, HaveOneCut, HaveOneAssembly};
ghost use Rattle.bpf_text.specs.Listing.{IsListing};

use bpf_isa::Program;

/// The canonical listing of a checked program has no fault, and its bytes are the program's.
pub fn canonical_listing(program: &Program)
    ensures { IsListing (canon program.now) program.now.bytes }
{
    program.invariant();
}

/// No two mnemonics have one name, a text says one instruction at most and takes its slots or has
/// one fault, a line is cut in one way, and a listing has the bytes of one program or one fault.
#[tactic(none)]
pub fn one_reading()
    ensures value { HaveOneMnemonic }
    ensures instructions { HaveOneInsn }
    ensures sizes { HaveOneSize }
    ensures lines { HaveOneCut }
    ensures only { HaveOneAssembly }
{}
