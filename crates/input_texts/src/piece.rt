//! The pieces of a file of tests: its sections, an object's with what says how it is linked.
ghost use Rattle.std.specs.Prelude.{◌≡◌, ◌≤◌, ◌<◌, ◌-◌, ◌^◌, ◌+◌, ◌++◌, drop, IfOk, OnOk};
ghost use Rattle.input_texts.specs.Pieces.{front, is_cut, is_main, piece_at, pieces, pieces_behind, until_cut};

use crate::head::{Text, head_of, is_head};
use std::alloc::{AllocError, Global};

/// A section, with the heads behind it that say how its object is linked.
#[derive(Drop)]
pub struct Piece<'a> {
    /// The line of its head, counted from 1.
    pub line: usize,
    pub text: Text<'a>,
}

/// Whether a text begins with the head of a piece.
fn is_main(text: &[u8]) -> bool
    ensures { result ≡ is_main text.now }
{
    is_head(text) && !head_of(text).word.is_option()
}

/// Whether a text begins with a line feed that such a head follows.
fn is_cut(text: &[u8]) -> bool
    ensures { result ≡ is_cut text.now }
{
    match text {
        [first, rest @ ..] => *first == b'\n' && is_main(rest),
        [] => false,
    }
}

/// A text up to the next such head.
fn until_cut(text: &[u8]) -> &[u8]
    ensures { result.now ≡ until_cut text.now }
{
    for at in 0..text.len() {
        if is_cut(&text[at..]) {
            return &text[..at + 1];
        }
    }
    text
}

/// What stands in front of all pieces.
pub fn front(text: &[u8]) -> &[u8]
    ensures { result.now ≡ front text.now }
{
    if is_main(text) { &[] } else { until_cut(text) }
}

/// Adds the piece at the beginning of a text, if it begins with a head of one.
fn push_at<'a>(found: &mut Vec<Piece<'a>>, line: usize, text: &'a [u8]) -> Result<(), AllocError>
    ensures { OnOk result (found.new.items ≡ found.old.items ++ piece_at line text.now) }
{
    if !is_main(text) {
        return Ok(());
    }
    let piece = Piece {
        line,
        text: Text {
            bytes: until_cut(text),
        },
    };
    match found.push(piece) {
        Ok(()) => Ok(()),
        Err(_) => Err(AllocError),
    }
}

/// Adds the piece whose head stands behind the first byte of a text, if that is a line feed and such
/// a head follows. Answers the line that follows the byte.
fn push_behind<'a>(
    found: &mut Vec<Piece<'a>>,
    line: usize,
    text: &'a [u8],
) -> Result<usize, AllocError>
    requires { line < 2 ^ 64 - 1 }
    ensures line { IfOk result (λ next. next ≤ line + 1) }
    ensures found { IfOk result (λ next.
        found.new.items ++ pieces_behind next (drop 1 text.now)
        ≡ found.old.items ++ pieces_behind line text.now) }
{
    match text {
        [b'\n', rest @ ..] => {
            push_at(found, line + 1, rest)?;
            Ok(line + 1)
        }
        _ => Ok(line),
    }
}

/// The pieces of a file. What stands in front of them, and they, are the whole file.
pub fn pieces(alloc: Global, text: &[u8]) -> Result<Vec<Piece<'_>>, AllocError>
    ensures { IfOk result (λ found. found.items ≡ pieces text.now) }
{
    let mut found = Vec::new(alloc);
    push_at(&mut found, 1, text)?;
    let mut line = 1;
    for at in 0..text.len() {
        line = push_behind(&mut found, line, &text[at..])?;
    }
    Ok(found)
}
