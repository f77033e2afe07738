//! Answers: what the bodies of packets tell gdb.
ghost use Rattle.std.specs.Prelude.{◌≡◌, ◌==◌, ◌<◌, ◌+◌, ◌^◌, ◌++◌, List, drop, true, ℕ};
ghost use Rattle.bpf_remote.specs.Answers.{answer_of_move, answer_of_set, answer_of_why, byte_at, description_text, error_text, halt_of, halt_of_end, halt_of_status, has_memory, memory_text, moves_text, other_text, part_of, present, register_text, registers_text, stop_text, supported_text, text_of, text_of_halt, watched_text};
ghost use Rattle.bpf_remote.specs.Numbers.{hex_text};
ghost use Rattle.bpf_remote.specs.Packets.{Holds};

use crate::body::Body;
use crate::frames::{FRAMES_BASE, frame_byte};
use crate::layout::{Layout, described, described_again, has_moves};
use crate::manners::Manners;
use bpf_agent::value_of;
use bpf_machine::{Cpu, Fault, Status};
use bpf_session::{Refusal, Reply, Why};

/// Why the machine stands still, as gdb is told.
#[derive(Clone, Copy)]
pub enum Halt {
    /// After what was asked for.
    Step,
    /// At a breakpoint.
    Break,
    /// At the beginning of what is kept.
    Begin,
    /// The machine has ended, and was to go on until something stops it.
    End,
    /// It runs and was asked where it stands; or it has ended, and was to step.
    Still,
    /// The limit of steps is reached.
    Limit,
    /// There was no memory for a further step.
    Memory,
    /// The access of a step failed.
    Access,
    /// A step could not be taken for another reason.
    Fault,
}

/// What a request is answered by.
#[derive(Clone, Copy)]
pub enum Answer {
    /// `OK`.
    Done,
    /// `E` and a number of two digits: that of a refusal, or 16 where an answer is too long for a
    /// packet.
    Error(u8),
    /// `T` and why the machine stands still.
    Halted(Halt),
    /// `T` and the address of a watched byte that has changed.
    Watched(u64),
    /// The values of r0 to r10 and pc.
    Registers,
    /// The value of one of them.
    Register(u64),
    /// Bytes from an address on, up to the first that isn't present.
    Memory { address: u64, count: u64 },
    /// What is understood.
    Supported,
    /// So many bytes of the machine's description, from an offset on.
    Description { offset: u64, count: u64 },
    /// The machine was there before.
    Attached,
    /// The ways to go on.
    Actions,
    /// Nothing: the request isn't known.
    Empty,
}

/// The number of an answer that is too long for a packet.
pub const TOO_LONG: u8 = 16;

/// The most bytes of memory that are shown at once.
const MOST_BYTES: u64 = 8192;

/// How a machine stands still that has ended. `runs` says whether it was to go on until something
/// stops it: gdb doesn't expect the end of what is kept behind a step, and would wait for ever.
fn halt_of_end(runs: bool) -> Halt
    ensures { result ≡ halt_of_end runs }
{
    if runs { Halt::End } else { Halt::Still }
}

/// How a machine stands still that is in this status.
pub(crate) fn halt_of_status(runs: bool, status: Status) -> Halt
    ensures { result ≡ halt_of_status runs status }
{
    match status {
        Status::Running => Halt::Still,
        Status::Exited => halt_of_end(runs),
        Status::Faulted(Fault::Access { .. }) => Halt::Access,
        Status::Faulted(_) => Halt::Fault,
    }
}

/// How a machine stands still behind a command that moved it.
fn halt_of(runs: bool, why: Why, status: Status) -> Halt
    ensures { result ≡ halt_of runs why status }
{
    match why {
        Why::End => halt_of_status(runs, status),
        Why::Break => Halt::Break,
        Why::Watch | Why::Done | Why::All => Halt::Step,
        Why::Limit => Halt::Limit,
        Why::Memory => Halt::Memory,
        Why::Start => Halt::Begin,
    }
}

/// How a machine stands still behind a command that moved it, with the watched byte that has
/// changed since before it.
fn answer_of_why(runs: bool, why: Why, status: Status, changed: Option<u64>) -> Answer
    ensures { result ≡ answer_of_why runs why status changed }
{
    match (why, changed) {
        (Why::Watch, Some(address)) => Answer::Watched(address),
        _ => Answer::Halted(halt_of(runs, why, status)),
    }
}

/// The answer to a request that moves, with the watched byte that has changed since before it.
pub(crate) fn answer_of_move(
    answer: &Result<Reply, Refusal>,
    runs: bool,
    status: Status,
    changed: Option<u64>,
) -> Answer
    ensures { result ≡ answer_of_move answer.now runs status changed }
{
    match answer {
        Ok(Reply::Forward { why, .. }) => answer_of_why(runs, *why, status, changed),
        Ok(Reply::Back { why, .. }) => answer_of_why(runs, *why, status, changed),
        Ok(_) => Answer::Done,
        Err(Refusal::MachineEnded) => Answer::Halted(halt_of_end(runs)),
        Err(Refusal::NoKeptStep) => Answer::Halted(Halt::Begin),
        Err(refusal) => Answer::Error(refusal.number()),
    }
}

/// The answer to a request that sets something.
pub(crate) fn answer_of_set<A>(answer: &Result<A, Refusal>) -> Answer
    ensures { result ≡ answer_of_set answer.now }
{
    match answer {
        Ok(_) => Answer::Done,
        Err(refusal) => Answer::Error(refusal.number()),
    }
}

/// Writes an answer behind a body.
pub(crate) fn append_answer(answer: Answer, cpu: &Cpu, manners: Manners<'_>, body: &mut Body)
    ensures { (text : List ℕ) → Holds body.old text →
        Holds body.new (text ++ text_of manners.entry cpu.now answer) }
{
    match answer {
        Answer::Done => body.append(b"OK"),
        Answer::Error(number) => append_error(number, body),
        Answer::Halted(halt) => {
            body.append(text_of_halt(halt, manners.swbreak).as_bytes());
            append_stop(cpu, manners, body);
        }
        Answer::Watched(address) => {
            append_watched(address, body);
            append_stop(cpu, manners, body);
        }
        Answer::Registers => append_registers(cpu, manners.target.layout, body),
        Answer::Register(n) => append_register(cpu, manners, n, body),
        Answer::Memory { address, count } => append_memory(cpu, address, count, body),
        Answer::Supported => body.append(supported_text(manners.target.layout).as_bytes()),
        Answer::Description { offset, count } => {
            append_description(manners.target.layout, offset, count, body)
        }
        Answer::Attached => body.append(b"1"),
        Answer::Actions => body.append(b"vCont;c;C;s;S;r"),
        Answer::Empty => {}
    }
}

/// The text of how a machine stands still. `swbreak` says whether gdb understands that word.
fn text_of_halt(halt: Halt, swbreak: bool) -> &'static str
    ensures { result.now ≡ text_of_halt swbreak halt }
{
    match halt {
        Halt::Step => "T05",
        Halt::Break => { if swbreak { "T05swbreak:;" } else { "T05" } }
        Halt::Begin => "T05replaylog:begin;",
        Halt::End => "T05replaylog:end;",
        Halt::Still => "T00",
        Halt::Limit | Halt::Memory => "T02",
        Halt::Access => "T0b",
        Halt::Fault => "T04",
    }
}

/// Writes the address of a watched byte that has changed behind a body.
fn append_watched(address: u64, body: &mut Body)
    ensures { (text : List ℕ) → Holds body.old text →
        Holds body.new (text ++ watched_text address) }
{
    body.append(b"T05watch:");
    body.append_address(address);
    body.append(b";");
}

/// Writes r10, pc and how many moves lie before behind a body.
fn append_stop(cpu: &Cpu, manners: Manners<'_>, body: &mut Body)
    ensures { (text : List ℕ) → Holds body.old text →
        Holds body.new (text ++ stop_text manners.entry cpu.now) }
{
    body.append(b"thread:0;0a:");
    body.append_word(value_of(cpu, 10));
    body.append(b";0b:");
    body.append_word(value_of(cpu, 11));
    body.append(b";");
    append_moves(manners.target.layout, manners.moves, body);
}

/// Writes how many moves lie before behind a body, where gdb is told of that register.
fn append_moves(layout: Layout, moves: u64, body: &mut Body)
    ensures { (text : List ℕ) → Holds body.old text →
        Holds body.new (text ++ moves_text layout moves) }
{
    if !has_moves(layout) {
        return;
    }
    body.append(b"40:");
    body.append_word(moves);
    body.append(b";");
}

/// What is understood.
fn supported_text(layout: Layout) -> &'static str
    ensures { result.now ≡ supported_text layout }
{
    match layout {
        Layout::Bpf => {
            "PacketSize=4000;ReverseStep+;ReverseContinue+;swbreak+;vContSupported+;QStartNoAckMode+;ConditionalBreakpoints+"
        }
        _ => {
            "PacketSize=4000;ReverseStep+;ReverseContinue+;swbreak+;vContSupported+;QStartNoAckMode+;ConditionalBreakpoints+;qXfer:features:read+"
        }
    }
}

/// Writes so many bytes of a machine's description behind a body, from an offset on.
fn append_description(layout: Layout, offset: u64, count: u64, body: &mut Body)
    ensures { (text : List ℕ) → Holds body.old text →
        Holds body.new (text ++ description_text layout offset count) }
{
    append_part(
        behind_offset(described(layout).as_bytes(), offset),
        count,
        body,
    );
}

/// What stands from an offset on.
fn behind_offset(text: &[u8], offset: u64) -> &[u8]
    ensures { result.now ≡ drop offset text.now }
{
    if offset < text.len() as u64 {
        &text[offset as usize..]
    } else {
        &[]
    }
}

/// Writes the first so many bytes behind a body, and before them whether they are all.
fn append_part(rest: &[u8], count: u64, body: &mut Body)
    ensures { (text : List ℕ) → Holds body.old text →
        Holds body.new (text ++ part_of rest.now count) }
{
    if rest.len() as u64 <= count {
        body.append(b"l");
        body.append(rest);
    } else {
        body.append(b"m");
        body.append(&rest[..count as usize]);
    }
}

/// Writes an error's number behind a body.
pub(crate) fn append_error(number: u8, body: &mut Body)
    ensures { (text : List ℕ) → Holds body.old text → Holds body.new (text ++ error_text number) }
{
    body.append(b"E");
    body.append_hex(&[number]);
}

/// Writes the values of r0 to r10 and pc behind a body, and those that gdb is told of once more.
fn append_registers(cpu: &Cpu, layout: Layout, body: &mut Body)
    ensures { (text : List ℕ) → Holds body.old text →
        Holds body.new (text ++ registers_text layout cpu.now) }
{
    let count = 12 + described_again(layout);
    for n in 0..count {
        body.append_word(value_of(cpu, n));
    }
}

/// Writes the value of a register behind a body.
fn append_register(cpu: &Cpu, manners: Manners<'_>, n: u64, body: &mut Body)
    ensures { (text : List ℕ) → Holds body.old text →
        Holds body.new (text ++ register_text manners.entry cpu.now n) }
{
    if n <= 22 {
        body.append_word(value_of(cpu, n as u8));
    } else {
        append_other(manners.moves, n, body);
    }
}

/// Writes the value of a register that isn't one of BPF behind a body.
fn append_other(moves: u64, n: u64, body: &mut Body)
    ensures { (text : List ℕ) → Holds body.old text → Holds body.new (text ++ other_text moves n) }
{
    if is_count(n) {
        body.append_word(moves);
    } else {
        body.append(b"xxxxxxxxxxxxxxxx");
    }
}

/// Whether a register says how many moves lie before the state.
fn is_count(n: u64) -> bool
    ensures { result ≡ n == 64 }
{
    n == 64
}

/// Writes bytes from an address on behind a body, up to the first that isn't there.
fn append_memory(cpu: &Cpu, address: u64, count: u64, body: &mut Body)
    ensures { (text : List ℕ) → Holds body.old text →
        Holds body.new (text ++ memory_text cpu.now address count) }
{
    let n = count.min(MOST_BYTES);
    if has_memory(cpu, address, n) {
        append_present(cpu, address, n, body);
    } else {
        append_error(6, body);
    }
}

/// Whether the first of so many bytes is there, and the last address isn't passed.
fn has_memory(cpu: &Cpu, address: u64, n: u64) -> bool
    ensures value { result ≡ has_memory cpu.now address n }
    ensures fits { result ≡ true → address + n < 2 ^ 64 }
{
    if n == 0 {
        return false;
    }
    match address.checked_add(n) {
        Some(_) => byte_at(cpu, address).is_some(),
        None => false,
    }
}

/// The byte at an address: one of the program's, from address 0 on, one of the frames of calls, or
/// what is present in memory.
fn byte_at(cpu: &Cpu, address: u64) -> Option<u8>
    ensures { result ≡ byte_at cpu.now address }
{
    let code = cpu.program().bytes();
    if address < code.len() as u64 {
        return Some(code[address as usize]);
    }
    if address >= FRAMES_BASE {
        return frame_byte(cpu, address - FRAMES_BASE);
    }
    match cpu.peek(address, 1) {
        Some(run) => Some(run[0]),
        None => None,
    }
}

/// Writes the bytes that are there behind a body.
fn append_present(cpu: &Cpu, address: u64, count: u64, body: &mut Body)
    requires { address + count < 2 ^ 64 }
    ensures { (text : List ℕ) → Holds body.old text →
        Holds body.new (text ++ hex_text (present cpu.now address count)) }
{
    for k in 0..count {
        match byte_at(cpu, address + k) {
            Some(byte) => body.append_hex(&[byte]),
            None => return,
        }
    }
}
