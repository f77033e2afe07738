//! What `clap` found for an argument: its texts, and the numbers that they are.
ghost use Rattle.std.specs.Prelude.{◌≡◌, ◌≤◌, ◌<◌, ◌^◌, IfNone, IfSome, MatchOption, OnSome, is_some, length, map, option_map};
ghost use Rattle.std.specs.Str.Parse.{IsNumeral, digits_value, without_leading_plus};
ghost use Rattle.clap.specs.Words.{first_of, found_of, rows_of};
ghost use Rattle.bpfdb_limits.specs.Limits.{IsLimit};
ghost use Rattle.bpfdb_cli.specs.Plans.{IsNumber, is_given, most_texts, number_in, number_or, texts_in};

use crate::plans::MOST_TEXTS;
use arrayvec::ArrayVec;
use bpfdb_limits::is_limit;
use clap::ArgMatches;

/// The first text that was given for an argument.
pub fn text_of<'a>(found: &ArgMatches<'a>, id: &str) -> Option<&'a str>
    ensures { option_map (λ text. text.now) result
        ≡ first_of id.now (rows_of (found_of found.now)) }
{
    found.get_str(id)
}

/// What an option says each time. None where that is too often.
pub fn texts_of<'a>(found: &ArgMatches<'a>, id: &str) -> Option<ArrayVec<&'a str, MOST_TEXTS>>
    ensures found { IfSome result (λ all. map (λ text. text.now) all.items
        ≡ texts_in id.now (rows_of (found_of found.now))) }
    ensures few { OnSome result (length (texts_in id.now (rows_of (found_of found.now))) ≤ most_texts) }
    ensures none { IfNone result (most_texts < length (texts_in id.now (rows_of (found_of found.now)))) }
{
    match found.get_strs(id) {
        Some(texts) => few_texts(texts),
        None => Some(ArrayVec::new()),
    }
}

/// The texts. None where they are too many.
fn few_texts<'a>(texts: &[&'a str]) -> Option<ArrayVec<&'a str, MOST_TEXTS>>
    ensures found { IfSome result (λ all. all.items ≡ texts.now) }
    ensures few { OnSome result (length texts.now ≤ most_texts) }
    ensures none { IfNone result (most_texts < length texts.now) }
{
    if texts.len() > MOST_TEXTS {
        return None;
    }
    let mut all = ArrayVec::new();
    let _all = all.try_extend_from_slice(texts);
    Some(all)
}

/// The number of an option; None where its text is no number below 2^64.
pub fn number_or(text: Option<&str>, default: u64) -> Option<u64>
    ensures found { IfSome result (λ number. number
        ≡ number_or default (option_map (λ t. t.now) text.entry)) }
    ensures none { IfNone result
        (MatchOption text.entry ⊥ (λ t. IsNumeral 10 (without_leading_plus t.now) →
        digits_value 10 (without_leading_plus t.now) < 2 ^ 64 → ⊥)) }
{
    match text {
        None => Some(default),
        Some(text) => match text.parse::<u64>() {
            Ok(number) => Some(number),
            Err(_) => None,
        },
    }
}

/// The number of an option that may be absent; None where its text is no number below 2^64.
pub fn number_in(text: Option<&str>) -> Option<Option<u64>>
    ensures found { IfSome result (λ number. number ≡ number_in (option_map (λ t. t.now) text.entry)) }
    ensures none { IfNone result (IsNumber (option_map (λ t. t.now) text.entry) → ⊥) }
{
    match text {
        None => Some(None),
        Some(text) => match text.parse::<u64>() {
            Ok(number) => Some(Some(number)),
            Err(_) => None,
        },
    }
}

/// The same of steps or lines; None also where they are none or too many.
pub fn limit_or(text: Option<&str>, default: u64) -> Option<u64>
    ensures found { IfSome result (λ number. number
        ≡ number_or default (option_map (λ t. t.now) text.entry)) }
    ensures limit { IfSome result IsLimit }
    ensures none { IfNone result (IsNumber (option_map (λ t. t.now) text.entry) →
        IsLimit (number_or default (option_map (λ t. t.now) text.entry)) → ⊥) }
{
    let number = number_or(text, default)?;
    if is_limit(number) { Some(number) } else { None }
}

/// Whether an argument has a text.
pub fn has_text(found: &ArgMatches<'_>, id: &str) -> bool
    ensures { result ≡ is_some (first_of id.now (rows_of (found_of found.now))) }
{
    text_of(found, id).is_some()
}

/// Whether a flag was given.
pub fn is_given(found: &ArgMatches<'_>, id: &str) -> bool
    ensures { result ≡ is_given (first_of id.now (rows_of (found_of found.now))) }
{
    match text_of(found, id) {
        None => false,
        Some(text) => text == "true",
    }
}
