//! Commands of a session.

use crate::count::{Count, Span};
use bpf_machine::Edit;

/// A command.
#[derive(Drop)]
pub enum Command {
    /// Takes steps until the goal is reached, or up to a breakpoint, a change of a watched byte,
    /// the machine's end or the session's limit.
    Forward(Goal),
    /// Goes back to the state before the latest moves that are looked for.
    Back(Target),
    /// `redo`: makes so many moves again that were taken back.
    Redo(Count),
    /// `set`: changes a register, bytes of memory, a cell of a map or pc.
    Edit(Edit),
    /// `break`, `watch`: sets a breakpoint or a watch.
    Add(Stop),
    /// `delete`, `unwatch`: removes it.
    Remove(Stop),
    /// `info`, `x`, `disas`, `last-write`: shows something of the session.
    Show(View),
    /// `quit`: ends the session.
    Quit,
}

/// What a command goes forward for.
#[derive(Clone, Copy)]
pub enum Goal {
    /// `stepi`: so many steps.
    Steps(Count),
    /// `nexti`: a step, and those of the function that it calls.
    Next,
    /// `continue`: no goal of its own.
    Continue,
    /// `finish`: the present function has returned.
    Finish,
}

/// What a command goes back for.
#[derive(Clone, Copy)]
pub enum Target {
    /// `undo`: so many commands that moved.
    Commands(Count),
    /// `reverse-stepi`: so many steps.
    Steps(Count),
    /// `reverse-nexti`: a step, and those of the function that returned in it.
    Next,
    /// `reverse-continue`: the latest step from a breakpoint, or that changed a watched byte.
    Continue,
    /// `reverse-finish`: the call of the present function.
    Finish,
}

/// Where forward and backward commands stop.
#[derive(Clone, Copy)]
pub enum Stop {
    /// A breakpoint, at a slot.
    Breakpoint(u64),
    /// A watch, of the byte at an address.
    Watch(u64),
}

/// What a command shows.
#[derive(Clone, Copy)]
pub enum View {
    /// `info regs`: the registers and the place.
    Registers,
    /// `info frames`: the frames of local calls.
    Frames,
    /// `info breaks`: the breakpoints and the watches.
    Breaks,
    /// `info history`: how much is kept.
    History,
    /// `info trace`: the words that were traced.
    Trace,
    /// `x`: so many bytes from an address on.
    Bytes { address: u64, span: Span },
    /// `disas`: so many instructions from a slot on.
    Instructions { slot: u64, span: Span },
    /// `last-write`: the latest kept move that changed the byte at an address.
    LastWrite(u64),
}
