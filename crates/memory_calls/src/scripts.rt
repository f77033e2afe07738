//! Journals, and scripts over a list of entries: each of its pushes takes memory.
use crate::sessions::{list_session, machine_of, maps_of, play};
use crate::telling::{Lack, say_number};
use bpf_journal::{Keeper, ListKeeper, Move, Reversible, RingKeeper};
use bpf_machine::Cpu;
use bpf_session::{Count, Session};
use counted_io::Counted;
use std::alloc::Global;
use std::io::Write;

/// The smallest size of a journal.
const SIZE: usize = 1_024;

/// The most steps of a command.
const LIMIT: u64 = 1_000_000;

/// add r0, 1; ja L0.
const LOOP_WORDS: &[u8] = b"\x07\0\0\0\x01\0\0\0\x05\0\xfe\xff\0\0\0\0";

/// A program and a script.
pub struct Script {
    /// The program's words.
    words: &'static [u8],
    /// The commands.
    text: &'static [u8],
}

/// mov r0, 42; exit: a few steps, and what they left.
pub const ANSWER: Script = Script {
    words: b"\xb7\0\0\0\x2a\0\0\0\x95\0\0\0\0\0\0\0",
    text: b"stepi 2\ninfo regs\ninfo history\n",
};

/// More steps than the journal holds, most of them taken back and made again.
pub const LOOP: Script = Script {
    words: LOOP_WORDS,
    text: b"stepi 100\ninfo history\nreverse-stepi 50\nredo 50\ninfo history\ninfo regs\n",
};

/// callf L2; exit; stb [r10-8], 7; exit: an edit of each kind, and a step of each of several kinds.
pub const EDITS: Script = Script {
    words: b"\
\x85\x10\0\0\x01\0\0\0\x95\0\0\0\0\0\0\0\x72\x0a\xf8\xff\x07\0\0\0\x95\0\0\0\0\0\0\0",
    text: b"\
set reg r6 1\nset mem 0x200000000 0102\nset cell 0 1 0102030405060708\nstepi\nset pc 2\nstepi\n\
info history\ninfo regs\nx 0x200000000 2\nx 0x300000008 8\n",
};

/// `ListKeeper::open`: the size.
pub fn open_list<W: Write>(alloc: Global, output: &mut Counted<W>) -> Result<(), Lack> {
    match ListKeeper::open(alloc, SIZE) {
        Ok(keeper) => say_number(output, keeper.capacity()),
        Err(fault) => Err(Lack::Refused("J", fault.number(), fault.text())),
    }
}

/// `RingKeeper::open`: the size.
pub fn open_ring<W: Write>(alloc: Global, output: &mut Counted<W>) -> Result<(), Lack> {
    match RingKeeper::open(alloc, SIZE) {
        Ok(keeper) => say_number(output, keeper.capacity()),
        Err(fault) => Err(Lack::Refused("J", fault.number(), fault.text())),
    }
}

/// A machine before its first step; none where memory runs out.
fn machine(alloc: Global, words: &[u8]) -> Option<Cpu> {
    machine_of(alloc, words, &maps_of("8x2")?, b"")
}

/// A session over a list of the smallest size, at the start of a script's program; none where
/// memory runs out.
fn session(alloc: Global, script: &Script) -> Option<Session<ListKeeper>> {
    let cpu = machine(alloc, script.words)?;
    list_session(alloc, cpu, SIZE, Count::new(LIMIT)?)
}

/// `run` over a list: the replies.
pub fn run_script<W: Write>(
    alloc: Global,
    script: &Script,
    output: &mut Counted<W>,
) -> Result<(), Lack> {
    let Some(mut session) = session(alloc, script) else {
        return Err(Lack::NotReached);
    };
    play(&mut session, script.text, output)
}

/// The laws, each of which is proved as the contract of a function that does nothing.
pub fn state_laws() -> Result<(), Lack> {
    bpf_machine::laws::memory_by_address();
    bpf_machine::laws::returns_give_back();
    bpf_machine::laws::calls_clear_their_frame();
    bpf_journal::laws::what_fits_is_the_longest();
    bpf_journal::laws::the_new_one_is_kept();
    bpf_journal::laws::the_dropped_is_forgotten();
    bpf_journal::laws::moves_go_one_way_and_back();
    bpf_journal::laws::the_refused_leads_nowhere();
    Ok(())
}

/// Makes a move and takes it back, through the bound. Tells whether it was made.
fn there_and_back<R: Reversible>(it: &mut R, change: &Move) -> bool {
    match it.make(change) {
        Ok(entry) => {
            it.revert(&entry);
            true
        }
        Err(_) => false,
    }
}

/// `Reversible`: where a machine stands whose first step was taken back.
pub fn step_back<W: Write>(alloc: Global, output: &mut Counted<W>) -> Result<(), Lack> {
    let Some(mut cpu) = machine(alloc, LOOP_WORDS) else {
        return Err(Lack::NotReached);
    };
    if there_and_back(&mut cpu, &Move::Step) {
        say_number(output, usize::from(cpu.pc()))
    } else {
        Err(Lack::Failed)
    }
}
