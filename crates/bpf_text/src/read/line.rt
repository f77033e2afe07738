//! The lines of a listing.
ghost use Rattle.std.specs.Prelude.{◌≡◌, ◌≤◌, Ok, Err, nat_le, IfOk, ◌+◌, if◌then◌else◌};
ghost use Rattle.std.specs.List.{list_all};
ghost use Rattle.bpf_text.specs.Characters.{is_text};
ghost use Rattle.bpf_text.specs.Scaffolding.Lines.{read_line, line_of};

use crate::fault::LineFault;
use crate::read::characters::{is_name, is_text};
use crate::read::statement::{Statement, read_statement};
use crate::read::term::Name;
use counted_io::{find, sides, trim, trim_start};

/// What a line says.
#[derive(Drop)]
pub struct Line<'a> {
    /// Its label, if it has one.
    pub label: Option<Name<'a>>,
    /// Its instruction, if it has one, or what is wrong with it.
    pub statement: Result<Option<Statement<'a>>, LineFault>,
}

/// What a line says, if a byte outside text stands only in its comment.
pub fn read_line(line: &[u8]) -> Result<Line<'_>, LineFault>
    ensures { result ≡ read_line line.now }
{
    let (code, _) = sides(line, b';');
    if are_text(code) {
        Ok(line_of(trim_start(code)))
    } else {
        Err(LineFault::NotText)
    }
}

fn are_text(text: &[u8]) -> bool
    ensures { result ≡ list_all is_text text.now }
{
    text.iter().all(|byte| is_text(*byte))
}

/// What is said by a line's code without the blanks in front.
fn line_of(code: &[u8]) -> Line<'_>
    ensures { result ≡ line_of code.now }
{
    let colon = find(code, b':');
    if colon < code.len() && is_name(&code[..colon]) {
        Line {
            label: Some(Name {
                bytes: &code[..colon],
            }),
            statement: read_statement(trim(&code[colon + 1..])),
        }
    } else {
        Line {
            label: None,
            statement: read_statement(trim(code)),
        }
    }
}
