//! Lines of a script, obeyed by a session, with what they print in memory.
ghost use Rattle.std.specs.Prelude.{◌++◌, ◌≡◌, ◌≤◌, IfOk, IfSome};
ghost use Rattle.bpf_journal.specs.Tracks.{Track};
ghost use Rattle.bpf_session.specs.Output.{is_quit};
ghost use Rattle.bpf_session.specs.Replies.{IsThere};
ghost use Rattle.bpf_session.specs.Sessions.{HasPast, bounds_of, point_of};
ghost use Rattle.counted_io.specs.Writing.{Writes};
ghost use Rattle.bpfdb_script.specs.Commands.{command_of};
ghost use Rattle.bpfdb_script.specs.Refusals.{refusal_text};
ghost use Rattle.bpf_questions.specs.Conversations.{ObeysBefore, ObeysCommand, ObeysLine, kind_of, says};
ghost use Rattle.bpf_questions.specs.Hearing.{said_of};
ghost use Rattle.bpf_questions.specs.Strict.{answer_text, strict_line};
ghost use Rattle.bpf_questions.specs.declared.message.Kind.TheVariants as the_kind;

use crate::message::{Kind, Message};
use crate::stop::{Past, past_after, steps_ahead, steps_there, told_behind};
use crate::view::View;
use bpf_journal::Keeper;
use bpf_machine::Cpu;
use bpf_session::{Command, Refusal, Reply, Session, parse_command, put_answer};
use bpfdb_script::{put_place, put_refusal};
use counted_io::{Counted, WriteFault, put, put_decimal};
use std::alloc::{AllocError, Global};
use std::io::Write;

/// What is said to a line.
#[derive(Drop)]
pub(crate) enum Heard {
    /// Nothing: it has no words.
    Nothing,
    /// Nothing: it ends the session.
    End,
    Says(Message),
}

/// That a line is refused.
pub(crate) fn refused(alloc: Global, refusal: Refusal) -> Result<Heard, AllocError>
    ensures { IfOk result (λ heard. said_of heard ≡ says the_kind.Refused (refusal_text refusal)) }
{
    let mut writer = Counted::new(Vec::new(alloc));
    match put_refusal(&mut writer, Ok(()), refusal) {
        Ok(()) => Ok(Heard::Says(Message {
            kind: Kind::Refused,
            text: writer.into_inner(),
        })),
        Err(WriteFault) => Err(AllocError),
    }
}

/// Writes the answer to a command, or that so many steps led to the stop of a strict session.
fn put_told<K: Keeper, W: Write>(
    session: &Session<K>,
    there: Option<u64>,
    answer: &Result<Reply, Refusal>,
    writer: &mut Counted<W>,
) -> Result<(), WriteFault>
    requires there { IfOk answer.now (λ reply. IsThere reply session.now.moment.state) }
    ensures { (t : Track) → HasPast K.holds session.now t →
        Writes W.contents writer.old writer.new result
        (answer_text there (bounds_of K.room session.now) answer.now (point_of session.now t)) }
{
    match there {
        Some(steps) => write_strict(session.cpu(), steps, writer),
        None => put_answer(session, answer, writer),
    }
}

/// Writes that so many steps led to the stop of a strict session, and where that is.
fn write_strict<W: Write>(cpu: &Cpu, steps: u64, writer: &mut Counted<W>) -> Result<(), WriteFault>
    ensures { Writes W.contents writer.old writer.new result (strict_line steps cpu.now) }
{
    let counted = put_decimal(writer, Ok(()), steps);
    let named = put(writer, counted, b" forward; strict; ");
    let placed = put_place(writer, named, cpu);
    put(writer, placed, b"\n")
}

/// What is said to a command that was answered so, with what is told behind it.
fn answered<K: Keeper>(
    alloc: Global,
    session: &Session<K>,
    there: Option<u64>,
    answer: &Result<Reply, Refusal>,
    behind: &[u8],
) -> Result<Heard, AllocError>
    requires there { IfOk answer.now (λ reply. IsThere reply session.now.moment.state) }
    ensures { IfOk result (λ heard. (t : Track) → HasPast K.holds session.now t →
        said_of heard ≡ says (kind_of answer.now) (answer_text there (bounds_of K.room session.now)
        answer.now (point_of session.now t) ++ behind.now)) }
{
    let mut writer = Counted::new(Vec::new(alloc));
    let told = put_told(session, there, answer, &mut writer);
    match put(&mut writer, told, behind) {
        Ok(()) => Ok(Heard::Says(Message {
            kind: kind_of(answer),
            text: writer.into_inner(),
        })),
        Err(WriteFault) => Err(AllocError),
    }
}

/// What is said where a command is answered so.
fn kind_of(answer: &Result<Reply, Refusal>) -> Kind
    ensures { result ≡ kind_of answer.now }
{
    match answer {
        Ok(_) => Kind::Reply,
        Err(_) => Kind::Refused,
    }
}

/// Whether a command ends the session.
fn ends(command: &Command) -> bool
    ensures { result ≡ is_quit command.now }
{
    match command {
        Command::Quit => true,
        _ => false,
    }
}

/// Applies a command, a forward one with no more steps than these.
fn apply_before<K: Keeper>(
    session: &mut Session<K>,
    command: &Command,
    ahead: Option<u64>,
) -> Result<Reply, Refusal>
    requires some { IfSome ahead (λ steps. 1 ≤ steps) }
    ensures { ObeysBefore K.holds K.refused K.room ahead session.old session.new command.now result }
{
    match ahead {
        Some(steps) => session.apply_within(command, steps),
        None => session.apply(command),
    }
}

/// Obeys a command, behind whose state this lies. Answers what is said to it, and what lies before the
/// state then.
fn obey_command<K: Keeper>(
    alloc: Global,
    view: &View<'_>,
    session: &mut Session<K>,
    command: &Command,
    past: Past,
) -> Result<(Heard, Past), AllocError>
    ensures { IfOk result (λ heard. ObeysCommand K.holds K.refused K.room view.now (session.old, past)
        (session.new, heard.1) command.now (is_quit command.now) (said_of heard.0)) }
{
    if ends(command) {
        return Ok((Heard::End, past));
    }
    let ahead = steps_ahead(view, past);
    let answer = apply_before(session, command, ahead);
    let there = steps_there(ahead, &answer);
    let behind = told_behind(view, past, command, &answer);
    let heard = answered(alloc, session, there, &answer, behind)?;
    Ok((heard, past_after(&answer, command, past)))
}

/// Obeys a line, as `obey_command` does its command.
pub(crate) fn obey_line<K: Keeper>(
    alloc: Global,
    view: &View<'_>,
    session: &mut Session<K>,
    line: &[u8],
    past: Past,
) -> Result<(Heard, Past), AllocError>
    ensures { IfOk result (λ heard. ObeysLine K.holds K.refused K.room view.now (session.old, past)
        (session.new, heard.1) (command_of line.now) (said_of heard.0)) }
{
    match parse_command(line) {
        Ok(None) => Ok((Heard::Nothing, past)),
        Ok(Some(command)) => obey_command(alloc, view, session, &command, past),
        Err(refusal) => Ok((refused(alloc, refusal)?, past)),
    }
}
