//! For tests: each public call of the libraries that takes memory, made once over a worked input,
//! what else only the libraries can be asked, and the examples of docs/CALLING.md.
//!
//! The argument names the call; without one all are made, each followed by its name and its status.
//! What comes of a call goes to standard output, and a refusal to standard error as bpfdb tells it,
//! with status 2. Status 3: the call wasn't reached.
//!
//! Two more calls read what comes in, and aren't among all: `session`, a script with arguments
//! (`sessions.rt`), and `questions`, a line each (`questions.rt`).
#![tactic(auto)]

mod examples;
mod faults;
mod files;
mod programs;
mod questions;
mod scripts;
mod sessions;
mod streams;
mod telling;

use bpfdb_files::FileKind;
use counted_io::{Counted, put, put_decimal};
use std::io::Write;
use std::process::ExitCode;
use std::{env, io};
use telling::{Lack, status};

/// The status where the call was refused, or what came of it can't be written.
pub const REFUSED: u8 = 2;

/// The status where memory ran out before the call was reached, or where there is no such call.
pub const NOT_REACHED: u8 = 3;

/// The calls.
const CALLS: [&str; 19] = [
    "check",
    "assemble",
    "disassemble",
    "memory",
    "machine",
    "restart",
    "list",
    "ring",
    "answer",
    "loop",
    "edits",
    "program",
    "context",
    "source",
    "laws",
    "back",
    "faults",
    "streams",
    "examples",
];

fn main(rt: HostRuntime) -> ExitCode {
    let mut output = Counted::new(io::writer(&rt));
    let mut errors = Counted::new(rt.stderr());
    ExitCode::from(obey(&rt, &mut output, &mut errors))
}

/// Makes the call that the command line names, or all. Answers the exit status.
fn obey<W: Write, E: Write>(
    rt: &HostRuntime,
    output: &mut Counted<W>,
    errors: &mut Counted<E>,
) -> u8 {
    let Some(words) = words_of(rt) else {
        return NOT_REACHED;
    };
    if words.is_empty() {
        return all_made(rt, output, errors);
    }
    let made = match word(&words, 0) {
        "session" => sessions::play_words(rt, &words, output),
        "questions" => questions::answer_all(rt, output),
        name => made(rt, name, output),
    };
    status(errors, made)
}

/// The words of the command line behind the program's name; none where memory runs out.
fn words_of(rt: &HostRuntime) -> Option<Vec<String>> {
    let mut words = Vec::new(rt.alloc());
    for word in env::args(rt).ok()?.skip(1) {
        words.push(word).ok()?;
    }
    Some(words)
}

/// One of the words; an empty one where there are fewer.
pub fn word<'a>(words: &'a [String], at: usize) -> &'a str {
    match words.get(at) {
        Some(word) => word.as_str(),
        None => "",
    }
}

/// Makes each call. Answers the exit status: 0 where all of it was written.
fn all_made<W: Write, E: Write>(
    rt: &HostRuntime,
    output: &mut Counted<W>,
    errors: &mut Counted<E>,
) -> u8 {
    for name in CALLS {
        let status = status(errors, made(rt, name, output));
        let told = put(output, Ok(()), name.as_bytes());
        let told = put(output, told, b" ");
        let told = put_decimal(output, told, u64::from(status));
        if put(output, told, b"\n").is_err() {
            return REFUSED;
        }
    }
    0
}

/// Makes the call of this name.
fn made<W: Write>(rt: &HostRuntime, name: &str, output: &mut Counted<W>) -> Result<(), Lack> {
    let alloc = rt.alloc();
    match name {
        "check" => programs::check_words(alloc, output),
        "assemble" => programs::assemble_listing(alloc, output),
        "disassemble" => programs::disassemble_program(alloc, output),
        "memory" => programs::open_memory(alloc, output),
        "machine" => programs::open_machine(alloc, output),
        "restart" => programs::restart_machine(alloc, output),
        "list" => scripts::open_list(alloc, output),
        "ring" => scripts::open_ring(alloc, output),
        "answer" => scripts::run_script(alloc, &scripts::ANSWER, output),
        "loop" => scripts::run_script(alloc, &scripts::LOOP, output),
        "edits" => scripts::run_script(alloc, &scripts::EDITS, output),
        "program" => files::read(alloc, FileKind::Program, output),
        "context" => files::read(alloc, FileKind::Context, output),
        "source" => files::read(alloc, FileKind::Source, output),
        "laws" => scripts::state_laws(),
        "back" => scripts::step_back(alloc, output),
        "faults" => faults::tell_faults(alloc, output),
        "streams" => streams::pass_on(output),
        "examples" => examples::tell(alloc, output),
        _ => Err(Lack::NotReached),
    }
}
