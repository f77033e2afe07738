//! The stop of a strict session: before the first step of its run that reads the stack where nothing was
//! written.
ghost use Rattle.std.specs.Prelude.{◌≡◌, ◌≤◌, IfSome};
ghost use Rattle.bpf_questions.specs.Strict as spec;

use crate::view::View;
use bpf_remote::moves_after;
use bpf_session::{Command, Refusal, Reply};

/// The read of the stack that stops the run of a strict session.
#[derive(Clone, Copy)]
pub struct Stop<'a> {
    /// How many steps come before it.
    pub steps: u64,
    /// The line that tells it.
    pub text: &'a [u8],
}

/// What lies before the state of a session.
#[derive(Clone, Copy)]
pub struct Past {
    /// How many moves: those that are kept, and those that the journal dropped.
    pub moves: u64,
    /// How many of them lie before the first edit, which is among them or was taken back; None where there
    /// is none.
    pub edit: Option<u64>,
}

/// Whether no edit is among them.
fn is_unedited(past: Past) -> bool
    ensures { result ≡ spec.is_unedited past }
{
    match past.edit {
        Some(before) => past.moves <= before,
        None => true,
    }
}

/// How many steps it is to the stop, where it is ahead.
pub(crate) fn steps_ahead(view: &View<'_>, past: Past) -> Option<u64>
    ensures value { result ≡ spec.ahead view.now past }
    ensures some { IfSome result (λ steps. 1 ≤ steps) }
{
    if !is_unedited(past) {
        return None;
    }
    match view.stop {
        Some(stop) => {
            if past.moves < stop.steps {
                Some(stop.steps - past.moves)
            } else {
                None
            }
        }
        None => None,
    }
}

/// How many steps a forward command took to the stop, where it came there.
pub(crate) fn steps_there(ahead: Option<u64>, answer: &Result<Reply, Refusal>) -> Option<u64>
    ensures { result ≡ spec.there ahead answer.now }
{
    match (ahead, answer) {
        (Some(steps), Ok(Reply::Forward { steps: taken, .. })) => {
            if *taken == steps { Some(steps) } else { None }
        }
        _ => None,
    }
}

/// What lies before the state behind a command, by its answer.
pub(crate) fn past_after(answer: &Result<Reply, Refusal>, command: &Command, past: Past) -> Past
    ensures { result ≡ spec.past_after answer.now command.now past }
{
    Past {
        moves: moves_after(answer, command, past.moves),
        edit: edit_after(answer, command, past),
    }
}

/// How many moves lie before the first edit then: a new move behind none forgets one that was taken back.
fn edit_after(answer: &Result<Reply, Refusal>, command: &Command, past: Past) -> Option<u64>
    ensures { result ≡ spec.edit_after answer.now command.now past }
{
    if !is_unedited(past) {
        return past.edit;
    }
    if edits(answer, command) {
        return Some(past.moves);
    }
    match answer {
        Ok(Reply::Forward { .. }) => None,
        _ => past.edit,
    }
}

/// What is told behind the answer to a command: the line of the stop where a forward command came there,
/// or made that step, where it is the first one; and that there is none any more behind an edit.
pub(crate) fn told_behind<'a>(
    view: &View<'a>,
    past: Past,
    command: &Command,
    answer: &Result<Reply, Refusal>,
) -> &'a [u8]
    ensures { result.now ≡ spec.behind view.now past command.now answer.now }
{
    if !(view.is_strict && is_unedited(past)) {
        return b"";
    }
    if edits(answer, command) {
        return b"not strict behind an edit\n";
    }
    match (view.stop, answer) {
        (Some(stop), Ok(Reply::Forward { steps, .. })) => {
            if is_told(stop.steps, past.moves, *steps) {
                stop.text
            } else {
                b""
            }
        }
        _ => b"",
    }
}

/// Whether a forward command of so many steps behind so many moves comes to a stop, or makes the step
/// that is the first of all.
fn is_told(stop: u64, moves: u64, steps: u64) -> bool
    ensures { result ≡ spec.is_told stop moves steps }
{
    if moves < stop {
        stop - moves == steps
    } else {
        stop == 0 && moves == 0
    }
}

/// Whether a command is an edit that was made.
fn edits(answer: &Result<Reply, Refusal>, command: &Command) -> bool
    ensures { result ≡ spec.edits answer.now command.now }
{
    match command {
        Command::Edit(_) => answer.is_ok(),
        _ => false,
    }
}
