//! Why a file is no trace.
ghost use Rattle.std.specs.Prelude.{◌≡◌, ◌<◌, ◌+◌, IfErr, IfOk, List, None, Option, Some, ℕ, length};
ghost use Rattle.counted_io.specs.Cuts.{trim};
ghost use Rattle.counted_io.specs.Lines.{lines};
ghost use Rattle.input_texts.specs.TraceFaults.{bad_line, first_bad, line_fault, misfit, wrong_in};
ghost use Rattle.input_texts.specs.TraceForms.{form_in, told};

use crate::told::Told;
use crate::trace_form::{Form, fits, form_of};
use crate::trace_lines::{Lines, tells};
use counted_io::trim;

/// The most bytes of a line.
pub const LONGEST_LINE: usize = 1_024;

/// What is wrong with a line of a trace.
#[derive(Clone, Copy)]
pub enum LineFault {
    /// X1: it is too long.
    Long,
    /// X2: it is the first one, and has neither form.
    NoForm,
    /// X3: it has another form than the first one, or none.
    OtherForm,
}

/// A line with a fault.
#[derive(Clone, Copy)]
pub struct BadLine {
    pub fault: LineFault,
    /// Its number, counted from 1.
    pub line: usize,
}

impl LineFault {
    /// Its number, and its text.
    fn row(self) -> (u8, &'static str)
        ensures number { result.0 ≡ (line_fault self).0 }
        ensures text { result.1.now ≡ (line_fault self).1 }
    {
        match self {
            LineFault::Long => (1, "more than 1024 bytes"),
            LineFault::NoForm => (2, "neither a line of trace nor a slot and eleven registers"),
            LineFault::OtherForm => (3, "not of the form of the first line"),
        }
    }

    /// The number that is printed after D.
    pub fn number(self) -> u8
        ensures { result ≡ (line_fault self).0 }
    {
        self.row().0
    }

    /// The text that is printed after the number.
    pub fn text(self) -> &'static str
        ensures { result.now ≡ (line_fault self).1 }
    {
        self.row().1
    }
}

/// The form of a trace, or its first line with a fault.
pub fn form_of_trace(file: &[u8]) -> Result<Form, BadLine>
    ensures ok { IfOk result (λ form. (form_in (told file.now) ≡ Some form)
        × (bad_line file.now ≡ None)) }
    ensures err { IfErr result (λ bad. bad_line file.now ≡ Some bad) }
{
    let form = first_form(file);
    match first_bad(form, file) {
        Some(bad) => Err(bad),
        None => match form {
            Some(form) => Ok(form),
            None => unreachable!(),
        },
    }
}

/// The form of the first line that tells something; that of `trace` where none does.
fn first_form(file: &[u8]) -> Option<Form>
    ensures { result ≡ form_in (told file.now) }
{
    match Told::of(file).next_told() {
        Some(line) => form_of(line),
        None => Some(Form::Steps),
    }
}

/// The first line with a fault, of a trace that has this form, or none.
fn first_bad(form: Option<Form>, file: &[u8]) -> Option<BadLine>
    ensures { result ≡ first_bad form 1 (lines file.now) }
{
    let mut lines = Lines::of(file);
    for k in 0..file.len() {
        let Some(line) = lines.next_line() else {
            return None;
        };
        match wrong_in(form, line) {
            Some(fault) => return Some(BadLine { fault, line: k + 1 }),
            None => {}
        }
    }
    None
}

/// What is wrong with a line of a trace that has this form, or none.
fn wrong_in(form: Option<Form>, line: &[u8]) -> Option<LineFault>
    ensures { result ≡ wrong_in form line.now }
{
    if line.len() > LONGEST_LINE {
        return Some(LineFault::Long);
    }
    let text = trim(line);
    if tells(text) {
        misfit(form, text)
    } else {
        None
    }
}

/// What is wrong with a line that tells something, by its form.
fn misfit(form: Option<Form>, line: &[u8]) -> Option<LineFault>
    ensures { result ≡ misfit form line.now }
{
    match form {
        None => Some(LineFault::NoForm),
        Some(form) => {
            if fits(form, line) {
                None
            } else {
                Some(LineFault::OtherForm)
            }
        }
    }
}
