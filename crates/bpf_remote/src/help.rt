//! The lines that `monitor help` lists.
ghost use Rattle.std.specs.Prelude.{◌≡◌};
ghost use Rattle.bpf_remote.specs.Help.{help_text};

/// The lines of a script, each with what it does.
#[tactic(auto, unfolding(crate::specs::Help::help_text))]
pub(crate) fn help() -> &'static str
    ensures { result.now ≡ help_text }
{
    HELP
}

/// What each line of a script does, as docs/commands.txt has it (tests hold one against the other),
/// and the lines that ask where a value came from, and why a slot was not come to.
pub(crate) const HELP: &str = "stepi [COUNT]: takes COUNT steps, 1 if left out
nexti: takes a step, or a whole call
continue: goes on to a breakpoint, a watch or the end
finish: goes on until this function has returned
undo [COUNT]: takes back the last COUNT commands that moved, edits too
reverse-stepi [COUNT]: goes back COUNT steps
reverse-nexti: goes back a step, or a whole call
reverse-continue or rc: goes back to a breakpoint or a watch
reverse-finish: goes back to before this function was called
redo [COUNT]: repeats COUNT undone moves, or all that there are
set reg REG NUM: sets a register
set mem NUM HEX: writes bytes at an address
set cell NUM NUM HEX: writes a value: the map, the index, its bytes
set pc NUM: goes to a slot; an ended program runs again
break NUM: stops before the instruction at a slot
delete NUM: removes the breakpoint at a slot
watch NUM: stops after a step that changed the byte at an address
unwatch NUM: removes the watch of an address
info regs: shows the registers and the next instruction
info frames: shows the calls that have not returned
info breaks: shows breakpoints and watches
info history: shows how much can be undone
info trace: shows the words that the program traced
x NUM NUM: shows bytes: the address, and how many
disas NUM NUM: shows instructions: the slot, and how many
last-write NUM: finds the move that last changed the byte at an address
origin [WHAT]: shows where a register or ADDRESS:COUNT got its value; left out r0, or a bad access's address
whynot SLOT,..: tells the latest kept branch after which these slots were out of reach
";
