//! Laws of the definitions, each proved as the contract of a function that does nothing.
ghost use Rattle.bpf_steps.specs.ByAddress.{MemoryIsItsAddresses};
ghost use Rattle.bpf_machine.specs.CallLaws.{PointerFollowsDepth, CallsGoDeeper, CallsFindZeros, CallsForgetTheFrame, LastFrameCallsNone, ReturnsGiveBack};
ghost use Rattle.bpf_machine.specs.Fields.{EntriesFit};
ghost use Rattle.bpf_machine.specs.StepLaws.{StepsKeepRegisters, StepsKeepBytes, StepsKeepTheRest, EndsKeepAllElse};

/// Memory read by address: what regions, runs, numbers, stores and cells mean.
#[tactic(none)]
pub fn memory_by_address()
    ensures { MemoryIsItsAddresses }
{}

/// Steps are local: a step changes the register that its instruction names, the one run of its
/// entry, pc and the status; a call and a return besides the frames with r10, a return r6 to r9, a
/// trace the trace list; and one that ends the machine the status alone.
#[tactic(none)]
pub fn steps_are_local()
    ensures registers { StepsKeepRegisters }
    ensures bytes { StepsKeepBytes }
    ensures rest { StepsKeepTheRest }
    ensures ends { EndsKeepAllElse }
{}

/// A function begins with a frame of zeros, whatever stood there: two states that differ in that
/// frame alone lead to one state. In the last frame a call changes the status alone.
#[tactic(none)]
pub fn calls_clear_their_frame()
    ensures zeros { CallsFindZeros }
    ensures forget { CallsForgetTheFrame }
    ensures last { LastFrameCallsNone }
{}

/// Local calls: r10 follows the depth, a call goes one deeper, and the return to its frame gives r6
/// to r9 and the depth back.
#[tactic(none)]
pub fn returns_give_back()
    ensures pointer { PointerFollowsDepth }
    ensures calls { CallsGoDeeper }
    ensures returns { ReturnsGiveBack }
{}

/// The parts of each entry fit their fields in a journal.
#[tactic(none)]
pub fn entries_fit()
    ensures { EntriesFit }
{}
