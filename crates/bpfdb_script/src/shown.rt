//! Names and texts of several lines, written as they are shown.
ghost use Rattle.std.specs.Prelude.{◌≡◌, ◌&&◌, ◌||◌, ◌==◌, not, flat_map, IfSome, string_bytes};
ghost use Rattle.std.specs.List.{list_all};
ghost use Rattle.bstr.specs.Utf8.{pieces, spans_from};
ghost use Rattle.counted_io.specs.Writing.{Writes, WritesAfter};
ghost use Rattle.bpfdb_script.specs.Shown.{among, shown, shown_char, shown_lines, shown_span, steers as steers_by};
ghost use Rattle.bpfdb_script.specs.Shown.{is_unseen as unseen_by, is_as_it_is as as_it_is_by};

use bstr::ByteSlice;
use counted_io::{Counted, WriteFault, hex_digit, put};
use std::alloc::Global;
use std::io::Write;

/// A name as it is shown, in a text of its own; None where memory ran out. (Names are UTF-8, and so
/// is what is shown of them.)
pub fn shown_name(alloc: Global, name: &str) -> Option<String>
    ensures { IfSome result (λ text. string_bytes text ≡ shown name.now) }
{
    match shown_bytes(alloc, name.as_bytes()) {
        Some(bytes) => match String::from_utf8(bytes) {
            Ok(text) => Some(text),
            Err(_) => None,
        },
        None => None,
    }
}

/// The bytes of a name as it is shown; None where memory ran out.
fn shown_bytes(alloc: Global, name: &[u8]) -> Option<Vec<u8>>
    ensures { IfSome result (λ bytes. bytes.items ≡ shown name.now) }
{
    let mut writer = Counted::new(Vec::new(alloc));
    match write_shown(&mut writer, name) {
        Ok(()) => Some(writer.into_inner()),
        Err(WriteFault) => None,
    }
}

/// Writes a name.
fn write_shown<W: Write>(writer: &mut Counted<W>, name: &[u8]) -> Result<(), WriteFault>
    ensures { Writes W.contents writer.old writer.new result (shown name.now) }
{
    put_shown(writer, Ok(()), name)
}

/// Writes a name, after what was written so far, unless that failed: each byte of a character that
/// ends a line, steers a terminal, turns its direction or isn't seen as `\x` and two hexadecimal
/// digits, and so each byte that belongs to no character of UTF-8.
pub fn put_shown<W: Write>(
    writer: &mut Counted<W>,
    so_far: Result<(), WriteFault>,
    name: &[u8],
) -> Result<(), WriteFault>
    ensures { WritesAfter W.contents writer.old so_far writer.new result (shown name.now) }
{
    if is_ascii_seen(name) {
        return put(writer, so_far, name);
    }
    put_chars(writer, so_far, false, name)
}

/// Whether a text is blanks and visible characters of ASCII alone, which are shown as they are.
fn is_ascii_seen(text: &[u8]) -> bool
    ensures { result ≡ list_all (among 0x20 0x7E) text.now }
{
    text.iter().all(|byte| matches!(*byte, 0x20..=0x7E))
}

/// Writes a text of several lines, in which a name may stand, after what was written so far, unless
/// that failed: as a name, with the line feeds as they are.
pub fn put_shown_lines<W: Write>(
    writer: &mut Counted<W>,
    so_far: Result<(), WriteFault>,
    text: &[u8],
) -> Result<(), WriteFault>
    ensures { WritesAfter W.contents writer.old so_far writer.new result (shown_lines text.now) }
{
    put_chars(writer, so_far, true, text)
}

/// Writes each character of a text, with or without lines.
fn put_chars<W: Write>(
    writer: &mut Counted<W>,
    so_far: Result<(), WriteFault>,
    lines: bool,
    text: &[u8],
) -> Result<(), WriteFault>
    ensures { WritesAfter W.contents writer.old so_far writer.new result
        (flat_map (shown_span lines text.now) (spans_from 0 (pieces text.now))) }
{
    let mut told = so_far;
    let mut chars = text.char_indices();
    'chars: while let Some((start, end, char)) = chars.next() {
        let as_is = is_as_it_is(lines, char);
        told = put_char(writer, told, as_is, &text[start..end]);
    }
    told
}

/// Whether a character is shown as it is.
fn is_as_it_is(lines: bool, char: char) -> bool
    ensures { result ≡ as_it_is_by lines char }
{
    if lines && char == '\n' {
        return true;
    }
    !steers(char) && !is_unseen(char)
}

/// Whether a character ends a line, steers a terminal or turns its direction, or stands for bytes
/// that are no character (U+FFFD).
pub fn steers(char: char) -> bool
    ensures { result ≡ steers_by char }
{
    matches!(
        char as u32,
        0..=0x1F
            | 0x7F..=0x9F
            | 0x61C
            | 0x200E..=0x200F
            | 0x202A..=0x202E
            | 0x2066..=0x2069
            | 0xFFFD
    )
}

/// Whether nothing is seen of a character, so that two names with and without it would look alike.
fn is_unseen(char: char) -> bool
    ensures { result ≡ unseen_by char }
{
    matches!(
        char as u32,
        0xAD | 0x34F
            | 0x115F..=0x1160
            | 0x17B4..=0x17B5
            | 0x180B..=0x180F
            | 0x200B..=0x200F
            | 0x2028..=0x202E
            | 0x2060..=0x206F
            | 0x3164
            | 0xFE00..=0xFE0F
            | 0xFEFF
            | 0xFFA0
            | 0xFFF0..=0xFFFB
            | 0x1BCA0..=0x1BCA3
            | 0x1D173..=0x1D17A
            | 0xE0000..=0xE0FFF
    )
}

/// Writes a character's bytes, as they are or each as `\x` and two hexadecimal digits.
fn put_char<W: Write>(
    writer: &mut Counted<W>,
    so_far: Result<(), WriteFault>,
    as_is: bool,
    bytes: &[u8],
) -> Result<(), WriteFault>
    ensures { WritesAfter W.contents writer.old so_far writer.new result
        (shown_char as_is bytes.now) }
{
    if as_is {
        return put(writer, so_far, bytes);
    }
    let mut told = so_far;
    for byte in bytes {
        let spelled = [b'\\', b'x', hex_digit(*byte / 16), hex_digit(*byte % 16)];
        told = put(writer, told, &spelled);
    }
    told
}
