//! What a section asks of an object.
ghost use Rattle.std.specs.Prelude.{◌≡◌, ◌&&◌, IfOk, length, nat_le};
ghost use Rattle.std.specs.List.{list_all};
ghost use Rattle.bpf_load.specs.Targets.{texts};
ghost use Rattle.input_texts.specs.Options.{values_of};
ghost use Rattle.input_texts.specs.declared.word.Word.TheVariants as word;
ghost use Rattle.suite_files.specs.Asks.{AreFit, IsAsked, IsListed, IsStr, StrsOrNone, entries_fit, given_in, has_offset, most_texts, packet_in};

use bpf_packet::Packet;
use input_texts::{
    Head, Text, Word, are_options, head_of, offset_in, once_of, option_lines, values_of,
};
use std::alloc::{AllocError, Global};

/// How many times a head may stand of those that may stand several times.
const MOST_TEXTS: usize = 16;

/// An object, and what is asked of its link, as a section says it.
#[derive(Drop)]
pub struct Asked<'a> {
    /// Its name, and those of the objects that are joined to it.
    pub object: Text<'a>,
    pub with: Vec<Text<'a>>,
    pub section: Option<Text<'a>>,
    /// The program, or those that are called in turn, each as `NAME` or `NAME@OFFSET`.
    pub entries: Vec<&'a str>,
    pub stubs: Option<&'a str>,
    pub packet: Option<Packet>,
}

/// What the heads behind that of an object say, each of which stands once at most.
#[derive(Drop)]
struct Given<'a> {
    section: Option<Text<'a>>,
    stubs: Option<Text<'a>>,
    structs: Option<Text<'a>>,
    left: Option<Text<'a>>,
}

/// What those say that may stand several times.
#[derive(Drop)]
struct Listed<'a> {
    with: Vec<Text<'a>>,
    entries: Vec<&'a str>,
}

/// The kernel's struct that is named, if one is: `xdp` or `tc`. None where it has another name.
fn packet_in(named: &Option<Text<'_>>) -> Option<Option<Packet>>
    ensures { result ≡ packet_in named.now }
{
    let Some(name) = named else {
        return Some(None);
    };
    if name.bytes == b"xdp".as_slice() {
        Some(Some(Packet::Xdp))
    } else if name.bytes == b"tc".as_slice() {
        Some(Some(Packet::Tc))
    } else {
        None
    }
}

/// A text as a string, if there is one. None where it isn't UTF-8.
fn str_of<'a>(text: &Option<Text<'a>>) -> Option<Option<&'a str>>
    ensures { IsStr text.now result }
{
    let Some(text) = text else {
        return Some(None);
    };
    match str::from_utf8(text.bytes) {
        Ok(text) => Some(Some(text)),
        Err(_) => None,
    }
}

/// What the lines of a section say that stand once at most. None where one stands more than once.
fn given_in(alloc: Global, piece: &[u8]) -> Result<Option<Given<'_>>, AllocError>
    ensures { IfOk result (λ given. given ≡ given_in piece.now) }
{
    let lines = option_lines(alloc, piece)?;
    let options = lines.as_slice();
    let section = once_of(alloc, options, Word::Section)?;
    let stubs = once_of(alloc, options, Word::Stub)?;
    let structs = once_of(alloc, options, Word::Struct)?;
    let left = once_of(alloc, options, Word::AsCompiled)?;
    match (section, stubs, structs, left) {
        (Some(section), Some(stubs), Some(structs), Some(left)) => Ok(Some(Given {
            section,
            stubs,
            structs,
            left,
        })),
        _ => Ok(None),
    }
}

/// The bytes of a text.
fn bytes_of<'a>(text: &Text<'a>) -> &'a [u8]
    ensures { result.now ≡ text.now }
{
    text.bytes
}

/// Texts as strings. None where one isn't UTF-8.
fn strs_of<'a>(alloc: Global, texts: &[Text<'a>]) -> Result<Option<Vec<&'a str>>, AllocError>
    ensures { IfOk result (StrsOrNone texts.now) }
{
    let mut strs = Vec::new(alloc);
    for k in 0..texts.len() {
        let Ok(text) = str::from_utf8(bytes_of(&texts[k])) else {
            return Ok(None);
        };
        match strs.push(text) {
            Ok(()) => {}
            Err(_) => return Err(AllocError),
        }
    }
    Ok(Some(strs))
}

/// What stands behind a word, each time, as strings. None where one isn't UTF-8.
fn strs_behind<'a>(
    alloc: Global,
    options: &[Head<'a>],
    word: Word,
) -> Result<Option<Vec<&'a str>>, AllocError>
    ensures { IfOk result (StrsOrNone (values_of word options.now)) }
{
    match values_of(alloc, options, word) {
        Ok(texts) => strs_of(alloc, texts.as_slice()),
        Err(fault) => Err(fault),
    }
}

/// Whether each of some texts has a place of the context.
fn have_offsets(entries: &[&str]) -> bool
    ensures { result ≡ list_all (λ text. has_offset text.now) entries.now }
{
    entries
        .iter()
        .all(|text| offset_in(text.as_bytes()).is_some())
}

/// Whether texts are few, each with a place of the context.
fn are_programs(entries: &[&str]) -> bool
    ensures { result ≡ (nat_le (length entries.now) most_texts
        && list_all (λ text. has_offset text.now) entries.now) }
{
    entries.len() <= MOST_TEXTS && have_offsets(entries)
}

/// Whether texts are programs, not too many, each with a place of the context.
fn entries_fit(entries: &[&str]) -> bool
    ensures { result ≡ entries_fit (texts entries.now) }
{
    are_programs(entries)
}

/// The programs that are named. None where they don't fit, or one isn't UTF-8.
fn entries_in<'a>(alloc: Global, options: &[Head<'a>]) -> Result<Option<Vec<&'a str>>, AllocError>
    ensures { IfOk result (AreFit entries_fit (values_of word.Entry options.now)) }
{
    match strs_behind(alloc, options, Word::Entry) {
        Ok(Some(entries)) => {
            if entries_fit(entries.as_slice()) {
                Ok(Some(entries))
            } else {
                Ok(None)
            }
        }
        Ok(None) => Ok(None),
        Err(fault) => Err(fault),
    }
}

/// What the lines of a section say that may stand several times. None where it isn't what they take.
fn listed_in(alloc: Global, piece: &[u8]) -> Result<Option<Listed<'_>>, AllocError>
    ensures { IfOk result (IsListed piece.now) }
{
    let lines = option_lines(alloc, piece)?;
    let options = lines.as_slice();
    let with = values_of(alloc, options, Word::With)?;
    if with.len() > MOST_TEXTS {
        return Ok(None);
    }
    match entries_in(alloc, options) {
        Ok(Some(entries)) => Ok(Some(Listed { with, entries })),
        Ok(None) => Ok(None),
        Err(fault) => Err(fault),
    }
}

/// What a section asks of an object. None where its lines aren't what it takes, one stands more often
/// than it may, there is no such struct, a program in turn has no place, or what has to be a string
/// isn't UTF-8.
pub fn asked_of(alloc: Global, piece: &[u8]) -> Result<Option<Asked<'_>>, AllocError>
    ensures { IfOk result (IsAsked piece.now) }
{
    if !are_options(piece) {
        return Ok(None);
    }
    let Some(given) = given_in(alloc, piece)? else {
        return Ok(None);
    };
    let Some(packet) = packet_in(&given.structs) else {
        return Ok(None);
    };
    let Some(stubs) = str_of(&given.stubs) else {
        return Ok(None);
    };
    let Some(listed) = listed_in(alloc, piece)? else {
        return Ok(None);
    };
    Ok(Some(Asked {
        object: head_of(piece).value,
        with: listed.with,
        section: given.section,
        entries: listed.entries,
        stubs,
        packet,
    }))
}
