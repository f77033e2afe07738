//! The lines behind the head of a piece: those that say how an object is linked.
ghost use Rattle.std.specs.Prelude.{◌≡◌, IfOk};
ghost use Rattle.counted_io.specs.Cuts.{after};
ghost use Rattle.input_texts.specs.Options.{are_bare, are_fine, are_options, is_bare, is_empty, is_fine, once_of, option_in, option_lines, options_in, value_if, values_of};

use crate::head::{Head, Text, head_of, is_head};
use crate::word::Word;
use counted_io::{sides, trim_start};
use std::alloc::{AllocError, Global};

/// The lines of a piece behind its head.
fn body_of(piece: &[u8]) -> &[u8]
    ensures { result.now ≡ after 10 piece.now }
{
    let (_, body) = sides(piece, b'\n');
    body
}

/// What a line says of a link, None where it says nothing of it.
fn option_in(line: &[u8]) -> Option<Head<'_>>
    ensures { result ≡ option_in line.now }
{
    if !is_head(line) {
        return None;
    }
    let head = head_of(line);
    if head.word.is_option() {
        Some(head)
    } else {
        None
    }
}

/// What the lines of a text say of a link.
fn options_in(alloc: Global, body: &[u8]) -> Result<Vec<Head<'_>>, AllocError>
    ensures { IfOk result (λ found. found.items ≡ options_in body.now) }
{
    body.split(|byte| *byte == b'\n')
        .filter_map(|line| option_in(line))
        .collect(alloc)
}

/// What the lines of a piece behind its head say of a link.
pub fn option_lines(alloc: Global, piece: &[u8]) -> Result<Vec<Head<'_>>, AllocError>
    ensures { IfOk result (λ found. found.items ≡ option_lines piece.now) }
{
    options_in(alloc, body_of(piece))
}

/// Whether a line is blank.
fn is_bare(line: &[u8]) -> bool
    ensures { result ≡ is_bare line.now }
{
    trim_start(line).is_empty()
}

/// Whether a line is blank, or says something of a link.
fn is_fine(line: &[u8]) -> bool
    ensures { result ≡ is_fine line.now }
{
    is_bare(line) || option_in(line).is_some()
}

/// Whether each line of a text is blank, or says something of a link.
fn are_fine(body: &[u8]) -> bool
    ensures { result ≡ are_fine body.now }
{
    body.split(|byte| *byte == b'\n').all(|line| is_fine(line))
}

/// Whether each line of a text is blank.
fn are_bare(body: &[u8]) -> bool
    ensures { result ≡ are_bare body.now }
{
    body.split(|byte| *byte == b'\n').all(|line| is_bare(line))
}

/// Whether each line of a piece behind its head is blank, or says something of a link.
pub fn are_options(piece: &[u8]) -> bool
    ensures { result ≡ are_options piece.now }
{
    are_fine(body_of(piece))
}

/// Whether each line of a piece behind its head is blank.
pub fn is_empty(piece: &[u8]) -> bool
    ensures { result ≡ is_empty piece.now }
{
    are_bare(body_of(piece))
}

/// What stands behind a word, if this head has it.
fn value_if<'a>(head: &Head<'a>, word: Word) -> Option<Text<'a>>
    ensures { result ≡ value_if word head.now }
{
    if head.word.is(word) {
        Some(Text {
            bytes: head.value.bytes,
        })
    } else {
        None
    }
}

/// What stands behind a word, each time.
pub fn values_of<'a>(
    alloc: Global,
    options: &[Head<'a>],
    word: Word,
) -> Result<Vec<Text<'a>>, AllocError>
    ensures { IfOk result (λ found. found.items ≡ values_of word options.now) }
{
    options
        .iter()
        .filter_map(|head| value_if(head, word))
        .collect(alloc)
}

/// What stands behind a word that stands once, if it does. None where it stands more than once.
pub fn once_of<'a>(
    alloc: Global,
    options: &[Head<'a>],
    word: Word,
) -> Result<Option<Option<Text<'a>>>, AllocError>
    ensures { IfOk result (λ found. found ≡ once_of (values_of word options.now)) }
{
    let mut values = values_of(alloc, options, word)?;
    if values.len() > 1 {
        return Ok(None);
    }
    Ok(Some(values.pop()))
}
