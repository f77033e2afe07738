//! A line of a case: the words of its program, or a minus sign, and its context.
ghost use Rattle.std.specs.Prelude.{◌≡◌, IfOk, [], if◌then◌else◌};
ghost use Rattle.input_texts.specs.Cases.{case_of, first_word, is_shared, own_digits, rest_of};

use crate::case_fault::CaseFault;
use crate::digits::bytes_of;
use counted_io::{find_blank, trim, trim_start};
use std::alloc::{AllocError, Global};
use std::marker::Model;

/// A case. Contracts see its bytes.
#[derive(Drop)]
pub struct Case {
    /// Whether its program is the one that cases share, and not its own words.
    pub is_shared: bool,
    /// The bytes of its own words; none where the program is shared.
    pub words: Vec<u8>,
    /// The bytes of its context.
    pub context: Vec<u8>,
}

impl Model for Case {
    ghost use Rattle.input_texts.specs.Cases.{CaseValue};

    ghost Value = { CaseValue };

    ghost view = { λ c. record {
      is_shared = c.is_shared;
      words = c.words.items;
      context = c.context.items;
    } };
}

/// The case that a line is, or why it is none. It may have any length.
pub fn case_of(alloc: Global, line: &[u8]) -> Result<Result<Case, CaseFault>, AllocError>
    ensures { IfOk result (λ read. read ≡ case_of line.now) }
{
    let text = trim(line);
    let word = first_word(text);
    let is_shared = is_shared(word);
    let Some(words) = bytes_of(alloc, own_digits(word))? else {
        return Ok(Err(CaseFault::NotHexadecimal));
    };
    let Some(context) = bytes_of(alloc, rest_of(text))? else {
        return Ok(Err(CaseFault::NotHexadecimal));
    };
    Ok(Ok(Case {
        is_shared,
        words,
        context,
    }))
}

/// What stands before the first blank.
fn first_word(text: &[u8]) -> &[u8]
    ensures { result.now ≡ first_word text.now }
{
    &text[..find_blank(text)]
}

/// What stands behind the blanks there.
fn rest_of(text: &[u8]) -> &[u8]
    ensures { result.now ≡ rest_of text.now }
{
    trim_start(&text[find_blank(text)..])
}

/// Whether a word stands for the program that cases share.
fn is_shared(word: &[u8]) -> bool
    ensures { result ≡ is_shared word.now }
{
    word == b"-".as_slice()
}

/// The digits of a word: none where it stands for the program that cases share.
fn own_digits(word: &[u8]) -> &[u8]
    ensures { result.now ≡ own_digits word.now }
{
    if is_shared(word) { &[] } else { word }
}
