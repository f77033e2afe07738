//! Scripts: lines from a reader, obeyed one after another, and their replies to a writer.
ghost use Rattle.std.specs.Prelude.{◌≡◌, List, ℕ, IfErr, IfOk, OnOk, Some, true};
ghost use Rattle.counted_io.specs.Writing.{Writes};
ghost use Rattle.bpf_journal.specs.Tracks.{Track};
ghost use Rattle.bpfdb_script.specs.Commands.{command_of};
ghost use Rattle.bpfdb_script.specs.ReadLines.{Holds};
ghost use Rattle.bpf_session.specs.LineSteps.{FailsOnce, ObeysLine};
ghost use Rattle.bpf_session.specs.Output.{is_quit};
ghost use Rattle.bpf_session.specs.Replies.{IsThere, text_of_answer};
ghost use Rattle.bpf_session.specs.Runs.{BreaksOff, FailsBy, HasStanding, Prints, Standing};
ghost use Rattle.bpf_session.specs.Sessions.{HasPast, bounds_of, point_of};

use crate::fault::RunFault;
use crate::reply::Reply;
use crate::session::Session;
use bpf_journal::Keeper;
use bpfdb_script::{Command, LineBuffer, Refusal, next_line, parse_command, put_refusal};
use counted_io::{Counted, WriteFault};
use std::io::{Read, Write};

/// Whether a command ends the session.
fn is_quit(command: &Command) -> bool
    ensures { result ≡ is_quit command.now }
{
    match command {
        Command::Quit => true,
        _ => false,
    }
}

/// What a line says: its command, None where it has no tokens, or why it is refused.
fn said_by(line: &LineBuffer) -> Result<Option<Command>, Refusal>
    ensures { (text : List ℕ) → Holds line.now text → result ≡ command_of text }
{
    match line.bytes() {
        Some(bytes) => parse_command(bytes),
        None => Err(Refusal::LineTooLong),
    }
}

/// Writes the answer to a command, from the session's present state.
pub fn put_answer<K: Keeper, W: Write>(
    session: &Session<K>,
    answer: &Result<Reply, Refusal>,
    writer: &mut Counted<W>,
) -> Result<(), WriteFault>
    requires there { IfOk answer.now (λ reply. IsThere reply session.now.moment.state) }
    ensures { (h : Track) → HasPast K.holds session.now h →
        Writes W.contents writer.old writer.new result
        (text_of_answer (bounds_of K.room session.now) answer.now (point_of session.now h)) }
{
    match answer {
        Ok(reply) => session.write_reply(reply, writer),
        Err(refusal) => put_refusal(writer, Ok(()), *refusal),
    }
}

/// Writes the answer to a command and flushes the writer. Answers that the session goes on.
fn write_answer<K: Keeper, W: Write>(
    session: &Session<K>,
    answer: &Result<Reply, Refusal>,
    writer: &mut Counted<W>,
) -> Result<bool, WriteFault>
    requires there { IfOk answer.now (λ reply. IsThere reply session.now.moment.state) }
    ensures value { (h : Track) → HasPast K.holds session.now h →
        Writes W.contents writer.old writer.new result
        (text_of_answer (bounds_of K.room session.now) answer.now (point_of session.now h)) }
    ensures ok { IfOk result (λ more. more ≡ true) }
{
    match put_answer(session, answer, writer) {
        Ok(()) => {}
        Err(fault) => return Err(fault),
    }
    match writer.flush() {
        Ok(()) => Ok(true),
        Err(_) => Err(WriteFault),
    }
}

/// Obeys a line and writes what it prints. Answers whether the session goes on.
fn obey<K: Keeper, W: Write>(
    session: &mut Session<K>,
    line: &LineBuffer,
    writer: &mut Counted<W>,
) -> Result<bool, WriteFault>
    ensures value { (h : Track) (text : List ℕ) → HasPast K.holds session.old h →
        Holds line.now text →
        ObeysLine K.holds K.refused K.room W.contents session.old session.new writer.old writer.new
        h text result }
    ensures fault { FailsOnce result writer.old writer.new }
    ensures bounds { bounds_of K.room session.new ≡ bounds_of K.room session.old }
{
    session.invariant();
    let answer = match said_by(line) {
        Ok(None) => return Ok(true),
        Ok(Some(command)) => {
            if is_quit(&command) {
                return Ok(false);
            }
            session.apply(&command)
        }
        Err(refusal) => Err(refusal),
    };
    write_answer(session, &answer, writer)
}

/// Obeys the lines of a script one after another, up to its end or the first `quit`, and writes
/// what they print. The writer is flushed after each reply. It takes no memory of its own.
pub fn run<K: Keeper, R: Read, W: Write>(
    session: &mut Session<K>,
    reader: &mut Counted<R>,
    writer: &mut Counted<W>,
) -> Result<(), RunFault>
    // What is printed is what the script prints in a debugger that keeps whole states. Where the
    // keeper's refusals didn't rise nothing is missing of it, as the law
    // `nothing_refused_nothing_missing` says.
    ensures value { OnOk result ((from : Standing) (script told : List ℕ) →
        HasStanding K.holds K.refused K.room session.old from →
        R.remaining reader.old.inner ≡ Some script → W.contents writer.old.inner ≡ Some told →
        (to : Standing) × HasStanding K.holds K.refused K.room session.new to × Prints from to
        (record {
          script = script;
          told = told;
          after = W.contents writer.new.inner;
          left = R.remaining reader.new.inner;
        })) }
    // Where a read or a write failed the session stands after the lines that were obeyed.
    ensures broken { IfErr result (λ why. (from : Standing) (script told : List ℕ) →
        HasStanding K.holds K.refused K.room session.old from →
        R.remaining reader.old.inner ≡ Some script → W.contents writer.old.inner ≡ Some told →
        (to : Standing) × HasStanding K.holds K.refused K.room session.new to
        × BreaksOff why from to
        (record {
          script = script;
          told = told;
          after = W.contents writer.new.inner;
          left = R.remaining reader.new.inner;
        })) }
    ensures ok { OnOk result ((reader.new.failures ≡ reader.old.failures)
        × (writer.new.failures ≡ writer.old.failures)) }
    ensures err { IfErr result (λ why. FailsBy why reader.old reader.new writer.old writer.new) }
    ensures bounds { bounds_of K.room session.new ≡ bounds_of K.room session.old }
{
    let mut line = LineBuffer::new();
    'lines: loop {
        let next = match next_line(reader, &mut line) {
            Err(_) => return Err(RunFault::Read),
            Ok(next) => next,
        };
        if next.is_missing() {
            return Ok(());
        }
        let goes_on = match obey(session, &line, writer) {
            Err(_) => return Err(RunFault::Write),
            Ok(goes_on) => goes_on,
        };
        if !goes_on {
            return Ok(());
        }
        if next.is_last() {
            return Ok(());
        }
    }
}
