//! Lines that ask.
ghost use Rattle.std.specs.Prelude.{◌≡◌, ◌<◌, [], ◌∷◌, length};
ghost use Rattle.std.specs.Option.{option_map};
ghost use Rattle.bpfdb_script.specs.Lines.{tokens};
ghost use Rattle.bpf_questions.specs.Inquiries as spec;

use bpfdb_script::{LONGEST_LINE, Refusal};
use counted_io::{find_blank, trim_start};

/// What a line asks.
#[derive(Clone, Copy)]
pub enum Topic {
    /// Where a value came from.
    Origin,
    /// Why the program did not come to a slot.
    Whynot,
}

/// A question.
#[derive(Clone, Copy)]
pub struct Inquiry<'a> {
    pub topic: Topic,
    /// The words behind the name of the question.
    pub words: &'a [u8],
}

/// The first word of a line, empty where there is none, and what stands behind it.
fn word_of(line: &[u8]) -> (&[u8], &[u8])
    ensures some { 0 < length result.0.now → tokens line.now ≡ result.0.now ∷ tokens result.1.now }
    ensures none { length result.0.now ≡ 0 → (tokens line.now ≡ []) × (result.1.now ≡ []) }
{
    let rest = trim_start(line);
    rest.split_at(find_blank(rest))
}

/// What a line asks; None where its first word is the name of no question, or it is too long to be read.
pub fn inquiry_in(line: &[u8]) -> Option<Inquiry<'_>>
    ensures { option_map (λ asked. (asked.topic, tokens asked.words.now)) result ≡ spec.inquiry_of line.now }
{
    if LONGEST_LINE < line.len() {
        return None;
    }
    let (word, words) = word_of(line);
    if word == b"origin".as_slice() {
        return Some(Inquiry {
            topic: Topic::Origin,
            words,
        });
    }
    if word == b"whynot".as_slice() {
        return Some(Inquiry {
            topic: Topic::Whynot,
            words,
        });
    }
    None
}

/// The one word that it is asked about, empty where there is none.
pub(crate) fn what_in(words: &[u8]) -> Result<&[u8], Refusal>
    ensures { spec.IsWhat (spec.what_by (tokens words.now)) result }
{
    let (word, rest) = word_of(words);
    let (next, _) = word_of(rest);
    if next.is_empty() {
        Ok(word)
    } else {
        Err(Refusal::WrongArgument)
    }
}
