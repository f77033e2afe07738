//! The words of a line.
ghost use Rattle.std.specs.Prelude.{◌≡◌, [], ◌∷◌, IfNone, MatchOption};
ghost use Rattle.input_texts.specs.TraceForms.{is_end, is_place, is_told as is_told_of, is_untold as is_untold_of, is_value as is_value_of, number, words_of};

use counted_io::{find_blank, natural, trim_start};
use std::marker::Model;

/// The words of a line that are still to be read.
#[derive(Drop)]
pub struct Words<'a> {
    line: &'a [u8],
}

impl<'a> Model for Words<'a> {
    ghost use Rattle.std.specs.Prelude.{ℕ, List};
    ghost use Rattle.input_texts.specs.TraceForms.{words_of};

    ghost Value = { List (List ℕ) };

    ghost view = { λ w. words_of w.line.now };
}

impl<'a> Words<'a> {
    /// All words of a line.
    pub fn of(line: &'a [u8]) -> Words<'a>
        ensures { result ≡ words_of line.now }
    {
        Words { line }
    }

    /// The next word, None after the last.
    pub fn next_word(&mut self) -> Option<&'a [u8]>
        ensures next { MatchOption result (self.old ≡ []) (λ word. self.old
            ≡ word.now ∷ self.new) }
        ensures same { IfNone result (self.new ≡ self.old) }
    {
        let line = trim_start(self.line);
        if line.is_empty() {
            return None;
        }
        let (word, rest) = line.split_at(find_blank(line));
        self.line = rest;
        Some(word)
    }
}

/// The number that a word is, if it is below 2^64.
pub fn number_of(word: &[u8]) -> Option<u64>
    ensures { result ≡ number word.now }
{
    natural(word)?.to_u64()
}

/// Whether a word says that a value isn't told.
pub fn is_untold(word: &[u8]) -> bool
    ensures { result ≡ is_untold_of word.now }
{
    word == b"-".as_slice()
}

/// Whether a word is an entry of a line of registers.
#[tactic(auto, unfolding(crate::specs::TraceForms::is_value))]
pub fn is_value(word: &[u8]) -> bool
    ensures { result ≡ is_value_of word.now }
{
    is_untold(word) || number_of(word).is_some()
}

/// Whether a word tells this number, or that it isn't told.
#[tactic(auto, unfolding(crate::specs::TraceForms::is_told))]
pub fn is_told(number: u64, word: &[u8]) -> bool
    ensures { result ≡ is_told_of number word.now }
{
    if is_untold(word) {
        return true;
    }
    match number_of(word) {
        Some(told) => told == number,
        None => false,
    }
}

/// Whether a word ends with a colon.
pub fn is_place(word: &[u8]) -> bool
    ensures { result ≡ is_place word.now }
{
    &word[word.len().saturating_sub(1)..] == b":".as_slice()
}

/// Whether a line that begins with this word says how a run ended.
pub fn is_end(word: &[u8]) -> bool
    ensures { result ≡ is_end word.now }
{
    word == b"exited".as_slice() || (word == b"fault".as_slice() || word == b"step".as_slice())
}
