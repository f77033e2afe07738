//! The tokens of a line.
ghost use Rattle.std.specs.Prelude.{◌≡◌, [], ◌∷◌, IfNone, IsOk, IfErr, MatchOption, ◌↔◌};
ghost use Rattle.bpfdb_script.specs.Lines.{tokens};

use crate::refusal::Refusal;
use counted_io::{find_blank, trim_start};
use std::marker::Model;

/// The tokens of a line that are still to be read. Space, tab and carriage return stand between
/// tokens.
#[derive(Drop)]
pub(crate) struct Tokens<'a> {
    line: &'a [u8],
}

impl<'a> Model for Tokens<'a> {
    ghost use Rattle.std.specs.Prelude.{ℕ, List};
    ghost use Rattle.bpfdb_script.specs.Lines.{tokens};

    ghost Value = { List (List ℕ) };

    ghost view = { λ w. tokens w.line.now };
}

impl<'a> Tokens<'a> {
    /// All tokens of a line.
    pub(crate) fn new(line: &'a [u8]) -> Self
        ensures value { result ≡ tokens line.now }
    {
        Tokens { line }
    }

    /// The next token, None after the last.
    pub(crate) fn next_token(&mut self) -> Option<&'a [u8]>
        ensures next { MatchOption result (self.old ≡ []) (λ token. self.old
            ≡ token.now ∷ self.new) }
        ensures same { IfNone result (self.new ≡ self.old) }
    {
        let line = trim_start(self.line);
        if line.is_empty() {
            return None;
        }
        let (token, rest) = line.split_at(find_blank(line));
        self.line = rest;
        Some(token)
    }

    /// Nothing is left to be read, else Q2.
    pub(crate) fn end(mut self) -> Result<(), Refusal>
        ensures ok { IsOk result ↔ (self.entry ≡ []) }
        ensures err { IfErr result (λ refusal. refusal ≡ Refusal.WrongArgument) }
    {
        match self.next_token() {
            None => Ok(()),
            Some(_) => Err(Refusal::WrongArgument),
        }
    }
}
