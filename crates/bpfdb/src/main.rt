//! The program: a debugger that runs a BPF program (RFC 9669) forwards and backwards.
#![tactic(auto)]

ghost use Rattle.std.specs.Prelude.{◌≡◌, ◌≢◌, ◌≤◌, IsTrue, map, string_bytes, true};
ghost use Rattle.bpfdb.specs.Done.{EndsPlanWith};
ghost use Rattle.bpfdb.specs.Words.{IsStatusOf};
ghost use Rattle.bpfdb_cli.specs.Plans.{status_of};
ghost use Rattle.bpfdb_limits.specs.Limits.{IsLimit};
ghost use Rattle.bpfdb.specs.Telling.{obeys_script};

mod contexts;
mod doing;
mod files;
mod host;
mod input;
mod job;
mod kind;
mod library;
mod linux;
mod notes;
mod opening;
mod output;
mod parts;
mod prompt;
mod telling;
mod tests;
mod words;

use bpfdb_cli::{Plan, PlanFault, plan};
use bpfdb_faults::{JobFault, give_up, tell_usage};
use bpfdb_files::{Opener, Retrying};
use bpfdb_jobs::Streams;
use bpfdb_options::Ask;
use clap::Error;
use counted_io::Counted;
use doing::{do_plan, show_help};
use host::Host;
use input::is_closed;
use library::Library;
use opening::{BuiltIn, SystemFiles, first_plan};
use output::{LateFile, do_for_file};
use prompt::{FIRST_GREETING, GREETING, Prompting};
use std::io;
use std::io::{BufReader, BufWriter, IsTerminal, Read, Stderr, Write};
use std::process::ExitCode;
use words::{shown_words, texts_of, words_of};

/// Standard error, in a buffer.
type ErrorBuffer = BufWriter<Retrying<Stderr>>;

/// The same, counted.
type Errors = Counted<ErrorBuffer>;

fn main(rt: HostRuntime) -> ExitCode {
    match BufWriter::new(rt.alloc(), Retrying::new(rt.stderr())) {
        Ok(buffer) => {
            let errors = Counted::new(buffer);
            ExitCode::from(obey(&rt, errors))
        }
        Err(_) => {
            let mut errors = Counted::new(Retrying::new(rt.stderr()));
            ExitCode::from(give_up(&mut errors, &JobFault::Memory))
        }
    }
}

/// Does what the command line says. Answers the exit status, as all that follows: 0, 1 or 2.
fn obey(rt: &HostRuntime, mut errors: Errors) -> u8
    ensures { result ≤ 2 }
{
    let words = match words_of(rt) {
        Ok(words) => words,
        Err(fault) => return give_up(&mut errors, &fault),
    };
    obey_words(rt, words.as_slice(), errors)
}

/// Does what these words say, the program's name first. Where no other follows, the program that is
/// built in is debugged.
fn obey_words(rt: &HostRuntime, words: &[String], mut errors: Errors) -> u8
    ensures value { result ≢ 2 → IsStatusOf (map string_bytes words.now) result }
    ensures status { result ≤ 2 }
{
    if words.len() < 2 {
        let library = Library::none();
        return do_over_streams(
            rt,
            &BuiltIn,
            &library,
            &first_plan(),
            FIRST_GREETING,
            errors,
        );
    }
    let Some(texts) = texts_of(rt.alloc(), words) else {
        return give_up(&mut errors, &JobFault::Memory);
    };
    match plan(rt.alloc(), texts.as_slice()) {
        Ok(plan) => {
            let files = SystemFiles { rt };
            let library = Library::of(rt);
            do_over_streams(rt, &files, &library, &plan, GREETING, errors)
        }
        Err(fault) => show(rt, words, &fault, &mut errors),
    }
}

/// Shows help on standard output, and what is wrong with these words on standard error.
#[inline(never)]
fn show(rt: &HostRuntime, words: &[String], fault: &PlanFault, errors: &mut Errors) -> u8
    ensures value { result ≢ 2 → result ≡ status_of fault.now }
    ensures status { result ≤ 2 }
{
    match fault {
        PlanFault::Memory => give_up(errors, &JobFault::Memory),
        PlanFault::Usage(text) => {
            if fault.status() == 0 {
                let mut output = Counted::new(Retrying::new(io::writer(rt)));
                show_help(rt.alloc(), text, &mut output, errors)
            } else {
                show_mistake(rt, words, text, errors)
            }
        }
    }
}

/// Shows what is wrong with words. It is said of the words as they are shown, so that none of them
/// makes a line of its own; `text` says it of the words as they are, and comes where the others are
/// a plan, which none were seen to be.
fn show_mistake(rt: &HostRuntime, words: &[String], text: &Error, errors: &mut Errors) -> u8
    ensures { result ≡ 2 }
{
    let Some(shown) = shown_words(rt.alloc(), words) else {
        return give_up(errors, &JobFault::Memory);
    };
    let Some(texts) = texts_of(rt.alloc(), shown.as_slice()) else {
        return give_up(errors, &JobFault::Memory);
    };
    match plan(rt.alloc(), texts.as_slice()) {
        Ok(_) => write_mistake(rt, text, errors),
        Err(PlanFault::Usage(text)) => write_mistake(rt, &text, errors),
        Err(PlanFault::Memory) => give_up(errors, &JobFault::Memory),
    }
}

/// Writes what is wrong with a command line to standard error.
fn write_mistake(rt: &HostRuntime, text: &Error, errors: &mut Errors) -> u8
    ensures { result ≡ 2 }
{
    match format!(in rt.alloc(); "{text}") {
        Ok(text) => tell_usage(errors, text.as_str()),
        Err(_) => give_up(errors, &JobFault::Memory),
    }
}

/// Does a plan over standard input and standard output. A standard input that is closed is an empty
/// script; one that is a terminal, where commands are typed, is greeted and read after a prompt.
/// Calls that the system interrupts are made again, below the buffers.
///
/// The input is read in large pieces, so a program that reads on behind `quit` in the same pipe
/// finds less than the script left there, mostly nothing. The system's reader has its buffer in itself,
/// and is lent, so that there is one of it on the stack.
#[inline(never)]
fn do_over_streams<F: Opener>(
    rt: &HostRuntime,
    files: &F,
    library: &Library,
    plan: &Plan<'_>,
    greeting: &'static str,
    mut errors: Errors,
) -> u8
    requires limit { IsLimit plan.now.options.limit }
    ensures value { result ≢ 2 → EndsPlanWith plan.now result }
    ensures status { result ≤ 2 }
{
    let Ok(output) = BufWriter::new(rt.alloc(), Retrying::new(io::writer(rt))) else {
        return give_up(&mut errors, &JobFault::Memory);
    };
    let mut streams = Streams {
        output: Counted::new(output),
        errors,
    };
    let host = Host {
        files,
        wants_linux: library.is_wanted,
        linux: library.path(),
        parts: library.parts(),
        at_terminal: rt.stderr().is_terminal(),
    };
    let mut input = Retrying::new(rt.reader());
    if is_closed(rt, &mut input) {
        let mut reader = Counted::new(b"".as_slice());
        return do_over(rt, &host, plan, &mut reader, &mut streams);
    }
    if is_typed(rt, plan) {
        let input = Prompting::new(&mut input, Retrying::new(rt.stderr()), greeting);
        let Ok(input) = BufReader::new(rt.alloc(), input) else {
            return give_up(&mut streams.errors, &JobFault::Memory);
        };
        let mut reader = Counted::new(input);
        return do_over(rt, &host, plan, &mut reader, &mut streams);
    }
    let Ok(input) = BufReader::new(rt.alloc(), &mut input) else {
        return give_up(&mut streams.errors, &JobFault::Memory);
    };
    let mut reader = Counted::new(input);
    do_over(rt, &host, plan, &mut reader, &mut streams)
}

/// Does a plan over a reader and the standard streams, or over a file in place of standard output where
/// the plan names one.
fn do_over<'a, F: Opener, R: Read, W: Write>(
    rt: &HostRuntime,
    host: &Host<'a, F>,
    plan: &Plan<'a>,
    reader: &mut Counted<R>,
    streams: &mut Streams<W, ErrorBuffer>,
) -> u8
    requires limit { IsLimit plan.now.options.limit }
    ensures value { result ≢ 2 → EndsPlanWith plan.now result }
    ensures status { result ≤ 2 }
{
    match plan.output {
        Some(path) => {
            let mut file = Counted::new(Retrying::new(LateFile::new(rt, path)));
            let errors = &mut streams.errors;
            do_for_file(rt.alloc(), host, plan, path, reader, &mut file, errors)
        }
        None => do_plan(rt.alloc(), host, plan, reader, streams),
    }
}

/// Whether commands are typed: the plan reads them, and standard input is a terminal.
fn is_typed(rt: &HostRuntime, plan: &Plan<'_>) -> bool
    ensures { IsTrue result → obeys_script plan.now.ask ≡ true }
{
    match &plan.ask {
        Ask::Debug => rt.stdin().is_terminal(),
        Ask::Conversation(talk) => !talk.is_json && rt.stdin().is_terminal(),
        _ => false,
    }
}
