//! The lines of a file.
ghost use Rattle.std.specs.Prelude.{◌≡◌, ◌≤◌, [], ◌∷◌, IfNone, MatchOption, length};
ghost use Rattle.counted_io.specs.Lines.{lines};
ghost use Rattle.input_texts.specs.TraceForms.{tells as tells_of};

use counted_io::sides;
use std::marker::Model;

/// The lines of a file that are still to be read.
#[derive(Drop)]
pub struct Lines<'a> {
    rest: &'a [u8],
}

impl<'a> Model for Lines<'a> {
    ghost use Rattle.std.specs.Prelude.{ℕ, List};
    ghost use Rattle.counted_io.specs.Lines.{lines};

    ghost Value = { List (List ℕ) };

    ghost view = { λ l. lines l.rest.now };
}

impl<'a> Lines<'a> {
    /// All lines of a file.
    pub fn of(file: &'a [u8]) -> Lines<'a>
        ensures { result ≡ lines file.now }
    {
        Lines { rest: file }
    }

    /// How many bytes are still to be read; so many lines at most are.
    pub fn len(&self) -> usize
        ensures { length self.now ≤ result }
    {
        self.rest.len()
    }

    /// The next line, None after the last.
    pub fn next_line(&mut self) -> Option<&'a [u8]>
        ensures next { MatchOption result (self.old ≡ []) (λ line. self.old
            ≡ line.now ∷ self.new) }
        ensures same { IfNone result (self.new ≡ self.old) }
    {
        if self.rest.is_empty() {
            return None;
        }
        let (line, rest) = sides(self.rest, b'\n');
        self.rest = rest;
        Some(line)
    }
}

/// Whether a line without blanks around it tells something: it isn't empty, and no remark.
pub fn tells(line: &[u8]) -> bool
    ensures { result ≡ tells_of line.now }
{
    match line {
        [] => false,
        [first, ..] => *first != b'#',
    }
}
