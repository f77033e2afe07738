//! Cuts of lines.
ghost use Rattle.std.specs.Prelude.{◌≡◌, [], ◌∷◌, MatchOption};
ghost use Rattle.std.specs.Option.{option_map};
ghost use Rattle.answer_forms.specs.Cuts.{begins as begins_with, behind as behind_words, cut_at as cut_words, pieces as pieces_of};

use counted_io::sides;
use std::marker::Model;

/// Whether a text begins with words.
pub fn begins(words: &[u8], text: &[u8]) -> bool
    ensures { result ≡ begins_with words.now text.now }
{
    text.strip_prefix(words).is_some()
}

/// What stands behind words with which a text begins.
#[tactic(auto, unfolding(crate::specs::Cuts::behind))]
pub fn behind<'a>(words: &[u8], text: &'a [u8]) -> Option<&'a [u8]>
    ensures { option_map (λ rest. rest.now) result ≡ behind_words words.now text.now }
{
    match text.strip_prefix(words) {
        Some(rest) => Some(rest),
        None => None,
    }
}

/// What stands before words where they first stand in a text, and what behind them.
pub fn cut_at<'a>(words: &[u8], text: &'a [u8]) -> Option<(&'a [u8], &'a [u8])>
    ensures { option_map (λ p. (p.0.now, p.1.now)) result ≡ cut_words words.now text.now }
{
    for at in 0..text.len() {
        if let Some(rest) = behind(words, &text[at..]) {
            return Some((&text[..at], rest));
        }
    }
    None
}

/// The pieces of a text that are still to be read.
#[derive(Drop)]
pub struct Pieces<'a> {
    rest: &'a [u8],
    byte: u8,
}

impl<'a> Model for Pieces<'a> {
    ghost use Rattle.std.specs.Prelude.{ℕ, List};
    ghost use Rattle.answer_forms.specs.Cuts.{pieces};

    ghost Value = { List (List ℕ) };

    ghost view = { λ p. pieces p.byte p.rest.now };
}

impl<'a> Pieces<'a> {
    /// All pieces of a text between a byte.
    pub fn of(text: &'a [u8], byte: u8) -> Pieces<'a>
        ensures { result ≡ pieces_of byte text.now }
    {
        Pieces { rest: text, byte }
    }

    /// The next piece, None after the last.
    pub fn next_piece(&mut self) -> Option<&'a [u8]>
        ensures next { MatchOption result ((self.old ≡ []) × (self.new ≡ [])) (λ piece. self.old
            ≡ piece.now ∷ self.new) }
    {
        if self.rest.is_empty() {
            return None;
        }
        let (piece, rest) = sides(self.rest, self.byte);
        self.rest = rest;
        Some(piece)
    }
}
