//! The call by which a program came from FILE's own code to other code.
ghost use Rattle.std.specs.Prelude.{◌≡◌, ◌≤◌};
ghost use Rattle.bpf_steps.specs.State.{depth, frame};
ghost use Rattle.bpf_trace.specs.OwnCode.{call_among, call_of, is_own, own_call};

use bpf_machine::Cpu;

/// The slots of a program that are FILE's own code: not what others have that are joined to it, as a
/// library, nor what the link adds.
#[derive(Clone, Copy)]
pub struct OwnCode {
    pub first: usize,
    /// The slot behind them.
    pub behind: usize,
}

/// Whether a slot is one of them.
fn is_own(own: OwnCode, slot: u16) -> bool
    ensures { result ≡ is_own own slot }
{
    own.first <= usize::from(slot) && usize::from(slot) < own.behind
}

/// The slot of the call of a frame, 0 the innermost, where that is FILE's own.
fn own_call(own: OwnCode, cpu: &Cpu, i: usize) -> Option<u16>
    ensures { result ≡ own_call own (frame cpu.now i) }
{
    let call = cpu.frame(i)?.return_pc.saturating_sub(1);
    if is_own(own, call) { Some(call) } else { None }
}

/// The slot of the innermost such call of the outermost frames, so many of them.
fn call_among(own: OwnCode, cpu: &Cpu, count: usize) -> Option<u16>
    requires { count ≤ depth cpu.now }
    ensures { result ≡ call_among own cpu.now count }
{
    if count == 0 {
        return None;
    }
    match own_call(own, cpu, cpu.depth() - count) {
        Some(call) => Some(call),
        None => call_among(own, cpu, count - 1),
    }
}

/// The slot of the call by which FILE's own code came to where a machine stands, if that is other code.
#[tactic(auto, unfolding(crate::specs::OwnCode::call_of))]
pub fn call_of(own: OwnCode, cpu: &Cpu) -> Option<u16>
    ensures { result ≡ call_of own cpu.now }
{
    if is_own(own, cpu.pc()) {
        None
    } else {
        call_among(own, cpu, cpu.depth())
    }
}
