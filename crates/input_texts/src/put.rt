//! What stands in place of a piece that names files: sections of the same lines.
ghost use Rattle.std.specs.Prelude.{◌≡◌, ◌++◌, IfOk, map};
ghost use Rattle.hex.specs.Hex.{encode_lower};
ghost use Rattle.input_texts.specs.Puts.{feeds, memory_text, row_byte, with_lines, with_maps, words_text};

use hex::encode;
use std::alloc::{AllocError, Global};

/// The line feeds of a piece.
pub fn feeds(alloc: Global, piece: &[u8]) -> Result<Vec<u8>, AllocError>
    ensures { IfOk result (λ found. found.items ≡ feeds piece.now) }
{
    piece
        .iter()
        .copied()
        .filter(|byte| *byte == b'\n')
        .collect(alloc)
}

/// Bytes with more behind them.
fn with(mut bytes: Vec<u8>, more: &[u8]) -> Result<Vec<u8>, AllocError>
    ensures { IfOk result (λ all. all.items ≡ bytes.items ++ more.now) }
{
    match bytes.extend_from_slice(more) {
        Ok(()) => Ok(bytes),
        Err(_) => Err(AllocError),
    }
}

/// A text with the hexadecimal digits of bytes behind it.
fn with_digits(alloc: Global, text: Vec<u8>, bytes: &[u8]) -> Result<Vec<u8>, AllocError>
    ensures { IfOk result (λ all. all.items ≡ text.items ++ encode_lower bytes.now) }
{
    let digits = encode(alloc, bytes)?;
    with(text, digits.as_str().as_bytes())
}

/// A section with the bytes of the context.
pub fn memory_text(alloc: Global, bytes: &[u8]) -> Result<Vec<u8>, AllocError>
    ensures { IfOk result (λ text. text.items ≡ memory_text bytes.now) }
{
    let begun = with(Vec::new(alloc), b"-- mem\x0c")?;
    with_digits(alloc, begun, bytes)
}

/// A text, and behind it a section with maps, if there are some.
fn with_maps(text: Vec<u8>, maps: &[u8]) -> Result<Vec<u8>, AllocError>
    ensures { IfOk result (λ all. all.items ≡ with_maps text.items maps.now) }
{
    if maps.is_empty() {
        return Ok(text);
    }
    let headed = with(text, b"\x0c-- maps\x0c")?;
    with(headed, maps)
}

/// Sections with the words of a program, and with its maps, if it has some.
pub fn words_text(alloc: Global, words: &[u8], maps: &[u8]) -> Result<Vec<u8>, AllocError>
    ensures { IfOk result (λ text. text.items ≡ words_text words.now maps.now) }
{
    let begun = with(Vec::new(alloc), b"-- words\x0c")?;
    let told = with_digits(alloc, begun, words)?;
    with_maps(told, maps)
}

/// A byte of a table, where a form feed ends a row.
fn row_byte(byte: u8) -> u8
    ensures { result ≡ row_byte byte }
{
    if byte == b'\n' { b'\x0c' } else { byte }
}

/// A table, in which form feeds end the rows.
fn rows(alloc: Global, table: &[u8]) -> Result<Vec<u8>, AllocError>
    ensures { IfOk result (λ found. found.items ≡ map row_byte table.now) }
{
    table
        .iter()
        .copied()
        .map(|byte| row_byte(byte))
        .collect(alloc)
}

/// A text, and behind it a section with a table of lines, if that has rows.
pub fn with_lines(alloc: Global, text: Vec<u8>, table: &[u8]) -> Result<Vec<u8>, AllocError>
    ensures { IfOk result (λ all. all.items ≡ with_lines text.items table.now) }
{
    if table.is_empty() {
        return Ok(text);
    }
    let headed = with(text, b"\x0c-- lines\x0c")?;
    let found = rows(alloc, table)?;
    with(headed, found.as_slice())
}
