//! Requests: what the body of a packet asks for.

use bpf_machine::ByteString;
use bpf_session::{Command, Run};

/// What a packet asks for.
#[derive(Drop)]
pub enum Request {
    /// `s`, `c`, `S`, `C`, `vCont;`, `bs`, `bc`: a command that moves. It is answered by where it
    /// stopped.
    Move(Command),
    /// `vCont;r`: a step, and further ones as long as pc lies within these addresses, the last not
    /// among them.
    Range {
        from: u64,
        to: u64,
    },
    /// `P`, `M`, `z0`, `z1`: a command that changes something. It is answered by `OK`.
    Set(Command),
    /// `Z0`, `Z1`: a breakpoint, and its condition if it has one that is kept.
    Break {
        slot: u64,
        condition: Option<ByteString>,
    },
    /// `Z2`: bytes that are watched from now on.
    Watch(Run),
    /// `z2`: bytes that are no longer watched.
    Unwatch(Run),
    /// `vCont?`: which ways to go on there are.
    Actions,
    /// `?`: where the machine stands.
    Stop,
    /// `g`: all registers.
    Registers,
    /// `p`: the register of a number.
    Register(u64),
    /// `m`: so many bytes from an address on.
    Memory {
        address: u64,
        count: u64,
    },
    /// `qSupported`: what is understood. The word `swbreak+` may stand in it.
    Supported {
        swbreak: bool,
    },
    /// `QStartNoAckMode`: packets aren't acknowledged any more.
    Silence,
    /// `qXfer:features:read:target.xml`: so many bytes of gdb's description, from an offset on.
    Description {
        offset: u64,
        count: u64,
    },
    /// `qAttached`: whether the machine was there before.
    Attached,
    /// `H`: the thread that other requests are about; there is one.
    Thread,
    /// `D`, `vKill`: gdb leaves.
    Leave,
    /// `k`: gdb leaves without an answer.
    Kill,
    /// A request of these, whose arguments are wrong.
    Wrong,
    /// Any other.
    Unknown,
}
