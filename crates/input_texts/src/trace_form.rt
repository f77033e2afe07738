//! The forms of a trace.
ghost use Rattle.std.specs.Prelude.{◌≡◌};
ghost use Rattle.input_texts.specs.TraceForms.{are_of_trace, are_values, fits as fits_of, form_of as form_of_line, words_of};

use crate::words::{Words, is_end, is_place, is_value, number_of};

/// The form of a trace's lines.
#[derive(Clone, Copy)]
pub enum Form {
    /// As `trace` writes them: of each step its instruction and what it wrote, and the end.
    Steps,
    /// The slot and the registers before each step.
    Registers,
}

/// The form of a line, None where it has neither.
pub fn form_of(line: &[u8]) -> Option<Form>
    ensures { result ≡ form_of_line line.now }
{
    if fits(Form::Registers, line) {
        Some(Form::Registers)
    } else if fits(Form::Steps, line) {
        Some(Form::Steps)
    } else {
        None
    }
}

/// Whether a line has a form.
pub fn fits(form: Form, line: &[u8]) -> bool
    ensures { result ≡ fits_of form line.now }
{
    match form {
        Form::Steps => is_of_trace(line),
        Form::Registers => is_of_values(line),
    }
}

/// Whether a line is one of `trace`, by its first two words.
fn is_of_trace(line: &[u8]) -> bool
    ensures { result ≡ are_of_trace (words_of line.now) }
{
    let mut words = Words::of(line);
    let Some(first) = words.next_word() else {
        return false;
    };
    let Some(second) = words.next_word() else {
        return false;
    };
    is_end(first) || (number_of(first).is_some() && is_place(second))
}

/// How many entries a line of registers has.
const ENTRIES: usize = 12;

/// Whether a line is the slot and eleven registers.
fn is_of_values(line: &[u8]) -> bool
    ensures { result ≡ are_values (words_of line.now) }
{
    let mut words = Words::of(line);
    for _k in 0..ENTRIES {
        match words.next_word() {
            Some(word) => {
                if !is_value(word) {
                    return false;
                }
            }
            None => return false,
        }
    }
    words.next_word().is_none()
}
