//! Requests and lines, obeyed by a session.
ghost use Rattle.std.specs.Prelude.{◌≡◌, ◌≤◌, ◌++◌, [], List, IfOk, MatchResult, codes, length, true, ℕ};
ghost use Rattle.bpf_journal.specs.Tracks.{Track};
ghost use Rattle.bpfdb_script.specs.Refusals.{refusal_text};
ghost use Rattle.bpf_session.specs.Output.{is_quit};
ghost use Rattle.bpf_session.specs.Replies.{IsThere, text_of_answer};
ghost use Rattle.bpf_session.specs.Sessions.{HasPast, bounds_of, point_of};
ghost use Rattle.bpf_remote.specs.Answers.{error_text};
ghost use Rattle.bpf_remote.specs.Help.{asks_help, help_text};
ghost use Rattle.bpf_remote.specs.Remarks.{console_text, remark_text};
ghost use Rattle.bpf_remote.specs.Numbers.{hex_text};
ghost use Rattle.bpf_remote.specs.Connections.{Answers, Heeds, ObeysCommand, ObeysLine, Sets, Tells, conditions_after, goes_on, is_answered, answer_to, line_of, manners_after};
ghost use Rattle.bpf_remote.specs.Packets.{Holds, longest_body};

use crate::answer::{Answer, TOO_LONG, answer_of_set, append_error, halt_of_status};
use crate::body::{Body, LONGEST_BODY};
use crate::help::help;
use crate::manners::Manners;
use crate::moves::moves_after;
use crate::parser::is;
use crate::remark::{Remark, write_remark};
use crate::request::Request;
use crate::ways::go;
use arrayvec::ArrayVec;
use bpf_agent::Conditions;
use bpf_journal::Keeper;
use bpf_machine::Cpu;
use bpf_session::{Command, Count, Goal, Refusal, Reply, Session, Stop, parse_command};
use bpfdb_script::put_refusal;
use counted_io::{Counted, WriteFault, put};

/// The longest text of a reply that fits a packet, in bytes, and the longest line that a packet
/// spells.
const LONGEST_TEXT: usize = LONGEST_BODY / 2;

/// Obeys a request, before whose state so many moves lie. Says how it is answered, and how many lie
/// before then.
pub(crate) fn obey<K: Keeper>(
    session: &mut Session<K>,
    request: &Request,
    conditions: &Conditions,
    moves: u64,
) -> (Answer, u64)
    ensures { Answers K.holds K.refused K.room (session.old, moves) (session.new, result.1)
        request.now conditions.now result.0 }
{
    match request {
        Request::Move(command) => go(session, request, command, conditions, moves),
        Request::Range { .. } => {
            let step = Command::Forward(Goal::Steps(Count::ONE));
            go(session, request, &step, conditions, moves)
        }
        Request::Set(command) => set(session, command, moves),
        Request::Break { slot, .. } => {
            set(session, &Command::Add(Stop::Breakpoint(*slot)), moves)
        }
        Request::Watch(run) => (answer_of_set(&session.watch(run)), moves),
        Request::Unwatch(run) => (answer_of_set(&session.unwatch(run)), moves),
        _ => (answer_to(session, request), moves),
    }
}

/// Obeys a command, which is answered by whether it was obeyed.
fn set<K: Keeper>(session: &mut Session<K>, command: &Command, moves: u64) -> (Answer, u64)
    ensures { Sets K.holds K.refused K.room (session.old, moves) (session.new, result.1)
        command.now result.0 }
{
    let said = session.apply(command);
    (answer_of_set(&said), moves_after(&said, command, moves))
}

/// The answer to a request that asks, and changes nothing.
fn answer_to<K: Keeper>(session: &Session<K>, request: &Request) -> Answer
    ensures { result ≡ answer_to request.now session.now }
{
    match request {
        Request::Stop => Answer::Halted(halt_of_status(false, session.cpu().status())),
        Request::Registers => Answer::Registers,
        Request::Register(n) => Answer::Register(*n),
        Request::Memory { address, count } => Answer::Memory {
            address: *address,
            count: *count,
        },
        Request::Supported { .. } => Answer::Supported,
        Request::Description { offset, count } => Answer::Description {
            offset: *offset,
            count: *count,
        },
        Request::Attached => Answer::Attached,
        Request::Actions => Answer::Actions,
        Request::Wrong => Answer::Error(2),
        Request::Unknown => Answer::Empty,
        _ => Answer::Done,
    }
}

/// How gdb is talked to behind a request, before whose state so many moves lie then.
pub(crate) fn manners_after<'a>(request: &Request, moves: u64, manners: Manners<'a>) -> Manners<'a>
    ensures { result ≡ manners_after request.now moves manners.entry }
{
    match request {
        Request::Silence => Manners {
            acknowledges: false,
            swbreak: manners.swbreak,
            target: manners.target,
            moves,
        },
        Request::Supported { swbreak } => Manners {
            acknowledges: manners.acknowledges,
            swbreak: *swbreak,
            target: manners.target,
            moves,
        },
        _ => with_moves(moves, manners),
    }
}

/// Keeps the condition of a breakpoint that was set, and forgets that of one that is taken away.
pub(crate) fn keep_conditions(request: &Request, told: Answer, conditions: &mut Conditions)
    ensures { conditions.new ≡ conditions_after request.now told conditions.old }
{
    match (request, told) {
        (Request::Break { slot, condition }, Answer::Done) => match condition {
            Some(code) => conditions.set(*slot, code.as_slice()),
            None => conditions.remove(*slot),
        },
        (Request::Set(Command::Remove(Stop::Breakpoint(slot))), _) => conditions.remove(*slot),
        _ => {}
    }
}

/// Manners as they are, but for the count of moves.
pub(crate) fn with_moves(moves: u64, manners: Manners<'_>) -> Manners<'_>
    ensures { result ≡ record manners.entry { moves = moves } }
{
    Manners {
        acknowledges: manners.acknowledges,
        swbreak: manners.swbreak,
        target: manners.target,
        moves,
    }
}

/// Whether the connection goes on behind a request.
pub(crate) fn goes_on(request: &Request) -> bool
    ensures { result ≡ goes_on request.now }
{
    match request {
        Request::Leave | Request::Kill => false,
        _ => true,
    }
}

/// Whether a request is answered.
pub(crate) fn is_answered(request: &Request) -> bool
    ensures { result ≡ is_answered request.now }
{
    match request {
        Request::Kill => false,
        _ => true,
    }
}

/// The line of a remark.
fn line_text(remark: Remark, cpu: &Cpu) -> Result<Text, WriteFault>
    ensures { IfOk result (λ text. text.items ≡ remark_text remark cpu.now ++ codes "\n") }
{
    let mut writer = Counted::new(ArrayVec::new());
    let told = write_remark(remark, cpu, &mut writer);
    match put(&mut writer, told, b"\n") {
        Ok(()) => Ok(writer.into_inner()),
        Err(fault) => Err(fault),
    }
}

/// Writes the line of a remark into an empty body, as gdb shows it to its user. Answers whether it
/// is there.
pub(crate) fn append_remark(remark: Remark, cpu: &Cpu, body: &mut Body) -> bool
    requires { Holds body.old [] }
    ensures { result ≡ true → Holds body.new (console_text (remark_text remark cpu.now)) }
{
    match line_text(remark, cpu) {
        Ok(text) => {
            body.append(b"O");
            body.append_hex(text.as_slice());
            true
        }
        Err(_) => false,
    }
}

/// What the line says that hexadecimal digits spell, None where they spell none.
fn line_of(digits: &[u8]) -> Option<Result<Option<Command>, Refusal>>
    requires { length digits.now ≤ longest_body }
    ensures { result ≡ line_of digits.now }
{
    let len = digits.len() / 2;
    let mut buffer = [0; LONGEST_TEXT];
    match hex::decode_to_slice(digits, &mut buffer[..len]) {
        Ok(()) => Some(parse_command(&buffer[..len])),
        Err(_) => None,
    }
}

/// Heeds the line that hexadecimal digits spell, before whose state so many moves lie, and writes
/// what it prints into an empty body. Answers how many lie before then.
pub(crate) fn heed_line<K: Keeper>(
    session: &mut Session<K>,
    digits: &[u8],
    moves: u64,
    body: &mut Body,
) -> u64
    requires short { length digits.now ≤ longest_body }
    requires empty { Holds body.old [] }
    ensures { (text : List ℕ) × Holds body.new text
        × Heeds K.holds K.refused K.room session.old session.new (asks_help digits.now)
        digits.now text moves result }
{
    if asks_help(digits) {
        append_help(body);
        return moves;
    }
    obey_line(session, digits, moves, body)
}

/// Whether a line asks for the list of lines.
fn asks_help(digits: &[u8]) -> bool
    ensures { result ≡ asks_help digits.now }
{
    is(digits, "68656c70")
}

/// Writes the list of lines into an empty body, in hexadecimal.
fn append_help(body: &mut Body)
    requires { Holds body.old [] }
    ensures { Holds body.new (hex_text help_text) }
{
    body.append_hex(help().as_bytes());
}

/// Obeys a line of a script.
fn obey_line<K: Keeper>(session: &mut Session<K>, digits: &[u8], moves: u64, body: &mut Body) -> u64
    requires short { length digits.now ≤ longest_body }
    requires empty { Holds body.old [] }
    ensures { (text : List ℕ) × Holds body.new text
        × ObeysLine K.holds K.refused K.room session.old session.new (line_of digits.now) text
        moves result }
{
    match line_of(digits) {
        None => {
            append_error(2, body);
            moves
        }
        Some(Ok(None)) => {
            body.append(b"OK");
            moves
        }
        Some(Ok(Some(command))) => obey_command(session, &command, moves, body),
        Some(Err(refusal)) => {
            tell_refusal(refusal, body);
            moves
        }
    }
}

/// Obeys a command.
fn obey_command<K: Keeper>(
    session: &mut Session<K>,
    command: &Command,
    moves: u64,
    body: &mut Body,
) -> u64
    requires { Holds body.old [] }
    ensures { (text : List ℕ) × Holds body.new text
        × ObeysCommand K.holds K.refused K.room session.old session.new command.now
        (is_quit command.now) text moves result }
{
    if is_quit(command) {
        body.append(b"OK");
        return moves;
    }
    let said = session.apply(command);
    append_text(answer_text(session, &said), body);
    moves_after(&said, command, moves)
}

/// Whether a command ends the session.
fn is_quit(command: &Command) -> bool
    ensures { result ≡ is_quit command.now }
{
    match command {
        Command::Quit => true,
        _ => false,
    }
}

/// Writes a refusal into an empty body.
fn tell_refusal(refusal: Refusal, body: &mut Body)
    requires { Holds body.old [] }
    ensures { (text : List ℕ) × Holds body.new text × Tells (refusal_text refusal) text }
{
    append_text(refusal_text(refusal), body);
}

/// A text that fits a packet.
type Text = ArrayVec<u8, LONGEST_TEXT>;

/// What is printed for a refusal.
fn refusal_text(refusal: Refusal) -> Result<Text, WriteFault>
    ensures { IfOk result (λ text. text.items ≡ refusal_text refusal) }
{
    let mut writer = Counted::new(ArrayVec::new());
    match put_refusal(&mut writer, Ok(()), refusal) {
        Ok(()) => Ok(writer.into_inner()),
        Err(fault) => Err(fault),
    }
}

/// What is printed for an answer, from the session's present state.
fn answer_text<K: Keeper>(
    session: &Session<K>,
    said: &Result<Reply, Refusal>,
) -> Result<Text, WriteFault>
    requires there { IfOk said.now (λ reply. IsThere reply session.now.moment.state) }
    ensures { IfOk result (λ text. (t : Track) → HasPast K.holds session.now t →
        text.items ≡ text_of_answer (bounds_of K.room session.now) said.now
        (point_of session.now t)) }
{
    let reply = match said {
        Ok(reply) => reply,
        Err(refusal) => return refusal_text(*refusal),
    };
    let mut writer = Counted::new(ArrayVec::new());
    match session.write_reply(reply, &mut writer) {
        Ok(()) => Ok(writer.into_inner()),
        Err(fault) => Err(fault),
    }
}

/// Writes a text into an empty body, in hexadecimal; an error where it is too long.
fn append_text(text: Result<Text, WriteFault>, body: &mut Body)
    requires { Holds body.old [] }
    ensures { MatchResult text (λ text. Holds body.new (hex_text text.items))
        (λ _. Holds body.new (error_text 16)) }
{
    match text {
        Ok(text) => body.append_hex(text.as_slice()),
        Err(_) => append_error(TOO_LONG, body),
    }
}
