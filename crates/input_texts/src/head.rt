//! The heads of sections: a word, and what stands behind it.
ghost use Rattle.std.specs.Prelude.{◌≡◌, drop};
ghost use Rattle.counted_io.specs.Cuts.{trim};
ghost use Rattle.input_texts.specs.Heads.{head_of, head_said, is_head};

use crate::word::Word;
use counted_io::{find_blank, sides, trim, trim_start};
use std::marker::Model;

/// A part of a file of tests. Contracts see its bytes.
#[derive(Drop)]
pub struct Text<'a> {
    pub bytes: &'a [u8],
}

impl<'a> Model for Text<'a> {
    ghost use Rattle.std.specs.Prelude.{ℕ, List};

    ghost Value = { List ℕ };

    ghost view = { λ t. t.bytes.now };
}

/// What a head says.
#[derive(Drop)]
pub struct Head<'a> {
    /// Its first word.
    pub word: Word,
    /// What stands behind that, without blanks on both sides.
    pub value: Text<'a>,
}

/// Whether a text begins with a head.
pub fn is_head(text: &[u8]) -> bool
    ensures { result ≡ is_head text.now }
{
    text.starts_with(b"--")
}

/// The head at the beginning of a text.
pub fn head_of(text: &[u8]) -> Head<'_>
    ensures { result ≡ head_of text.now }
{
    let (line, _) = sides(text, b'\n');
    match line {
        [_, _, said @ ..] => head_said(trim(said)),
        _ => head_said(&[]),
    }
}

/// The head that says this.
fn head_said(said: &[u8]) -> Head<'_>
    ensures { result ≡ head_said said.now }
{
    let end = find_blank(said);
    Head {
        word: Word::named(&said[..end]),
        value: Text {
            bytes: trim_start(&said[end..]),
        },
    }
}
