//! What a job of `debug` does whose lines may ask, whose replies are lines of JSON, or which is strict.
ghost use Rattle.std.specs.Prelude.{◌≡◌, ◌≤◌, IfErr, OnOk};
ghost use Rattle.bpfdb_faults.specs.Streams.{Told, stream};
ghost use Rattle.bpfdb_jobs.specs.Conversations.{Converses, conversation_line, form_of};
ghost use Rattle.bpfdb_jobs.specs.Jobs.{IsKnown};
ghost use Rattle.bpfdb_jobs.specs.Streams.{between};
ghost use Rattle.bpfdb_limits.specs.Limits.{IsLimit};

use crate::gdb::known_names;
use crate::job::Job;
use crate::known::Known;
use crate::naming::naming_of;
use crate::opening::{session_over, wanted_of};
use crate::streams::Streams;
use crate::strict::{Strict, stop_line, stop_of, strict_machine};
use bpf_load::Loaded;
use bpf_questions::{ConversationFault, Form, View, converse};
use bpfdb_faults::{JobFault, give_up};
use bpfdb_options::{ConversationAsk, DEFAULT_LINES};
use counted_io::Counted;
use std::alloc::Global;
use std::io::{Read, Write};

/// Opens a session as `debug` does, and answers the lines of the reader, the script, up to the first
/// `quit`: those that ask from the session as it stands. Each reply is flushed. A strict session stops at
/// the first read of the stack where nothing was written, which its run is looked for at first.
#[inline(never)]
pub fn conversation_job<R: Read, W: Write, E: Write>(
    alloc: Global,
    ask: ConversationAsk,
    job: &Job<'_>,
    loaded: Loaded,
    known: Known<'_>,
    reader: &mut Counted<R>,
    streams: &mut Streams<W, E>,
) -> u8
    requires limit { IsLimit job.now.options.limit }
    requires known { IsKnown job.now loaded.object known }
    ensures does { Converses ask job.now loaded (stream R.remaining reader.old reader.new)
        (between W.contents E.contents streams.old streams.new) result }
    ensures status { result ≤ 2 }
{
    let Loaded { program, object } = loaded;
    let Strict { cpu, unwritten } = match strict_machine(
        alloc,
        job,
        ask.is_strict,
        known.own,
        program,
    ) {
        Ok(strict) => strict,
        Err(refusal) => return give_up(&mut streams.errors, &JobFault::Refused(refusal)),
    };
    let mut session = match session_over(alloc, job, cpu) {
        Ok(session) => session,
        Err(refusal) => return give_up(&mut streams.errors, &JobFault::Refused(refusal)),
    };
    let line = match stop_line(alloc, known.places, unwritten) {
        Ok(line) => line,
        Err(refusal) => return give_up(&mut streams.errors, &JobFault::Refused(refusal)),
    };
    let mut wanted = match wanted_of(alloc) {
        Ok(wanted) => wanted,
        Err(refusal) => return give_up(&mut streams.errors, &JobFault::Refused(refusal)),
    };
    let source = object.as_ref();
    let names = known_names(alloc, job, source);
    let naming = match naming_of(alloc, job, source) {
        Ok(naming) => naming,
        Err(refusal) => return give_up(&mut streams.errors, &JobFault::Refused(refusal)),
    };
    let view = View {
        asks: ask.asks,
        form: form_of(ask.is_json),
        lines: DEFAULT_LINES,
        names: names.as_ref(),
        info: naming.info(job),
        places: known.places,
        is_strict: ask.is_strict,
        stop: stop_of(unwritten, line.as_slice()),
    };
    let output = &mut streams.output;
    let answered = converse(alloc, &view, &mut wanted, &mut session, reader, output);
    conversation_ended(answered, &mut streams.errors)
}

/// The form in which replies are written.
fn form_of(is_json: bool) -> Form
    ensures { result ≡ form_of is_json }
{
    if is_json { Form::Json } else { Form::Text }
}

/// The exit status of a script that was answered: 0, or 2 where that broke off, which is told.
fn conversation_ended<E: Write>(
    answered: Result<(), ConversationFault>,
    errors: &mut Counted<E>,
) -> u8
    ensures ok { OnOk answered ((errors.new ≡ errors.old) × (result ≡ 0)) }
    ensures err { IfErr answered (λ why. Told (stream E.contents errors.old errors.new)
        (conversation_line why) × (result ≡ 2)) }
    ensures status { result ≤ 2 }
{
    match answered {
        Ok(()) => 0,
        Err(ConversationFault::Read) => give_up(errors, &JobFault::Input),
        Err(ConversationFault::Write) => give_up(errors, &JobFault::Output),
        Err(ConversationFault::Memory) => give_up(errors, &JobFault::Memory),
    }
}
