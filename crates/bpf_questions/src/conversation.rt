//! Scripts that are answered line by line.
ghost use Rattle.std.specs.Prelude.{◌≡◌, ◌+◌, ℕ, IfErr, IfOk, List, OnOk, Some};
ghost use Rattle.bpf_lines.specs.DebugInfos.{AreWhole};
ghost use Rattle.bpf_remote.specs.Moves.{counted};
ghost use Rattle.bpfdb_script.specs.ReadLines.{Holds};
ghost use Rattle.bpf_questions.specs.Conversations.{AnswersAll, BreaksOff, Hears};
ghost use Rattle.bpf_questions.specs.Failures.{Counts, FailsBy};
ghost use Rattle.bpf_questions.specs.Hearing.{TellsLine, said_of};

use crate::answers::answer;
use crate::fault::ConversationFault;
use crate::inquiry::inquiry_in;
use crate::message::write_message;
use crate::obeying::{Heard, obey_line, refused};
use crate::stop::Past;
use crate::view::View;
use bpf_journal::Keeper;
use bpf_origin::Wanted;
use bpf_session::{Refusal, Session};
use bpfdb_script::{LineBuffer, next_line};
use counted_io::Counted;
use std::alloc::{AllocError, Global};
use std::io::{Read, Write};

/// How far a script has been answered.
#[derive(Clone, Copy)]
pub(crate) struct Progress {
    /// What lies before the session's state.
    pub past: Past,
    /// How many lines were read.
    pub lines: u64,
}

/// Answers a line, or obeys it.
fn hear<K: Keeper>(
    alloc: Global,
    view: &View<'_>,
    wanted: &mut Wanted,
    session: &mut Session<K>,
    past: Past,
    line: &LineBuffer,
) -> Result<(Heard, Past), AllocError>
    requires { AreWhole view.now.info }
    ensures { IfOk result (λ heard. (text : List ℕ) → Holds line.now text →
        Hears K.holds K.refused K.room view.now (session.old, past) (session.new, heard.1) text (said_of heard.0)) }
{
    let Some(bytes) = line.bytes() else {
        return Ok((refused(alloc, Refusal::LineTooLong)?, past));
    };
    if !view.asks {
        return obey_line(alloc, view, session, bytes, past);
    }
    match inquiry_in(bytes) {
        Some(inquiry) => answer(alloc, view, wanted, session, past, inquiry),
        None => obey_line(alloc, view, session, bytes, past),
    }
}

/// Answers a line, and writes what is said to it. Says what lies before the state then; None where the
/// session ends.
fn tell_line<K: Keeper, W: Write>(
    alloc: Global,
    view: &View<'_>,
    wanted: &mut Wanted,
    session: &mut Session<K>,
    progress: Progress,
    line: &LineBuffer,
    writer: &mut Counted<W>,
) -> Result<Option<Past>, ConversationFault>
    requires { AreWhole view.now.info }
    ensures tells { (text : List ℕ) → Holds line.now text →
        TellsLine K.holds K.refused K.room W.contents view.now (session.old, progress.past) session.new
        (counted (progress.lines + 1)) text (writer.old, writer.new) result }
    ensures counts { Counts result writer.old writer.new }
{
    let Ok((heard, past)) = hear(alloc, view, wanted, session, progress.past, line) else {
        return Err(ConversationFault::Memory);
    };
    match heard {
        Heard::Nothing => Ok(Some(past)),
        Heard::End => Ok(None),
        Heard::Says(message) => {
            match write_message(
                alloc,
                writer,
                view.form,
                progress.lines.saturating_add(1),
                &message,
            ) {
                Ok(()) => Ok(Some(past)),
                Err(fault) => Err(fault),
            }
        }
    }
}

/// Answers the lines of a script one after another, up to its end or the first `quit`: questions from the
/// session as it stands, all others as the session obeys them. What is said to each is flushed. `wanted` has
/// the memory for answers where a value came from; more is taken for the text of each answer while it is told.
pub fn converse<K: Keeper, R: Read, W: Write>(
    alloc: Global,
    view: &View<'_>,
    wanted: &mut Wanted,
    session: &mut Session<K>,
    reader: &mut Counted<R>,
    writer: &mut Counted<W>,
) -> Result<(), ConversationFault>
    requires info { AreWhole view.now.info }
    ensures value { OnOk result ((script told : List ℕ) →
        R.remaining reader.old.inner ≡ Some script → W.contents writer.old.inner ≡ Some told →
        AnswersAll K.holds K.refused K.room view.now session.old session.new (record {
          script = script;
          told = told;
          after = W.contents writer.new.inner;
          left = R.remaining reader.new.inner;
        })) }
    ensures broken { IfErr result (λ why. (script told : List ℕ) →
        R.remaining reader.old.inner ≡ Some script → W.contents writer.old.inner ≡ Some told →
        BreaksOff K.holds K.refused K.room why view.now session.old (record {
          script = script;
          told = told;
          after = W.contents writer.new.inner;
          left = R.remaining reader.new.inner;
        })) }
    ensures ok { OnOk result ((reader.new.failures ≡ reader.old.failures)
        × (writer.new.failures ≡ writer.old.failures)) }
    ensures err { IfErr result (λ why. FailsBy why reader.old reader.new writer.old writer.new) }
{
    let mut line = LineBuffer::new();
    let past = Past {
        moves: 0,
        edit: None,
    };
    let mut progress = Progress { past, lines: 0 };
    'lines: loop {
        let next = match next_line(reader, &mut line) {
            Err(_) => return Err(ConversationFault::Read),
            Ok(next) => next,
        };
        if next.is_missing() {
            return Ok(());
        }
        let past = match tell_line(alloc, view, wanted, session, progress, &line, writer) {
            Err(why) => return Err(why),
            Ok(Some(past)) => past,
            Ok(None) => return Ok(()),
        };
        if next.is_last() {
            return Ok(());
        }
        progress = Progress {
            past,
            lines: progress.lines.saturating_add(1),
        };
    }
}
