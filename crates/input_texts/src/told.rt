//! The lines of a trace that tell something.
ghost use Rattle.std.specs.Prelude.{◌≡◌, [], ◌∷◌, MatchOption};
ghost use Rattle.input_texts.specs.TraceForms.{told};

use crate::trace_lines::{Lines, tells};
use counted_io::trim;
use std::marker::Model;

/// The lines of a trace that are still to be read, without blanks around them, but for those that tell
/// nothing.
#[derive(Drop)]
pub struct Told<'a> {
    lines: Lines<'a>,
}

impl<'a> Model for Told<'a> {
    ghost use Rattle.std.specs.Prelude.{ℕ, List};
    ghost use Rattle.input_texts.specs.TraceForms.{told_of};

    ghost Value = { List (List ℕ) };

    ghost view = { λ t. told_of t.lines };
}

impl<'a> Told<'a> {
    /// All of a file.
    pub fn of(file: &'a [u8]) -> Told<'a>
        ensures { result ≡ told file.now }
    {
        Told {
            lines: Lines::of(file),
        }
    }

    /// The next one, None after the last.
    pub fn next_told(&mut self) -> Option<&'a [u8]>
        ensures { MatchOption result ((self.old ≡ []) × (self.new ≡ [])) (λ line. self.old
            ≡ line.now ∷ self.new) }
    {
        for _k in 0..self.lines.len() {
            let Some(line) = self.lines.next_line() else {
                return None;
            };
            let text = trim(line);
            if tells(text) {
                return Some(text);
            }
        }
        None
    }
}
