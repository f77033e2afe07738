//! Messages, and the forms in which they are written.
ghost use Rattle.std.specs.Prelude.{◌≡◌, ℕ, IfOk, List};
ghost use Rattle.answer_forms.specs.Json.{quoted};
ghost use Rattle.counted_io.specs.Counted.{Tally};
ghost use Rattle.counted_io.specs.Writing.{Writes};
ghost use Rattle.bpf_questions.specs.Messages as spec;

use crate::fault::ConversationFault;
use answer_forms::push_quoted;
use counted_io::{Counted, Piece, WriteFault, put, put_all};
use std::alloc::{AllocError, Global};
use std::io::Write;

/// What a message is.
#[derive(Clone, Copy)]
pub enum Kind {
    /// What a command prints.
    Reply,
    /// The answer to a question.
    Answer,
    /// Why a line is refused.
    Refused,
}

/// The form in which messages are written.
#[derive(Clone, Copy)]
pub enum Form {
    /// As they are.
    Text,
    /// Each as a line of JSON, with the number of the script's line that it answers.
    Json,
}

/// What is said to a line.
#[derive(Drop)]
pub struct Message {
    pub kind: Kind,
    pub text: Vec<u8>,
}

/// The name of a kind of message.
fn kind_name(kind: Kind) -> &'static str
    ensures { result.now ≡ spec.kind_name kind }
{
    match kind {
        Kind::Reply => "reply",
        Kind::Answer => "answer",
        Kind::Refused => "refused",
    }
}

/// A text as a string of JSON.
fn quoted(alloc: Global, text: &[u8]) -> Result<Vec<u8>, AllocError>
    ensures { IfOk result (λ string. string.items ≡ quoted text.now) }
{
    let mut string = Vec::new(alloc);
    push_quoted(&mut string, text)?;
    Ok(string)
}

/// Writes a message as a line of JSON: the number of the line that it answers, what it is, and its text, a
/// string.
fn put_json<W: Write>(
    writer: &mut Counted<W>,
    number: u64,
    kind: Kind,
    string: &[u8],
) -> Result<(), WriteFault>
    ensures { Writes W.contents writer.old writer.new result (spec.json_text number kind string.now) }
{
    let pieces = [
        Piece::Text(b"{\"line\":"),
        Piece::Decimal(number),
        Piece::Text(b",\"kind\":\""),
        Piece::Text(kind_name(kind).as_bytes()),
        Piece::Text(b"\",\"text\":"),
        Piece::Text(string),
        Piece::Text(b"}\n"),
    ];
    put_all(writer, Ok(()), &pieces)
}

/// Flushes after what was written so far, unless that failed.
fn flush_after<W: Write>(
    writer: &mut Counted<W>,
    so_far: Result<(), WriteFault>,
) -> Result<(), ConversationFault>
    ensures written { (first : Tally W) (text : List ℕ) → Writes W.contents first writer.old so_far text →
        spec.WritesMessage W.contents first writer.new result text }
{
    match so_far {
        Ok(()) => {}
        Err(WriteFault) => return Err(ConversationFault::Write),
    }
    match writer.flush() {
        Ok(()) => Ok(()),
        Err(_) => Err(ConversationFault::Write),
    }
}

/// Writes a message to the line of this number, and flushes. Where memory runs out nothing is written.
pub fn write_message<W: Write>(
    alloc: Global,
    writer: &mut Counted<W>,
    form: Form,
    number: u64,
    message: &Message,
) -> Result<(), ConversationFault>
    ensures { spec.WritesMessage W.contents writer.old writer.new result
        (spec.message_text form number message.now.kind message.now.text.items) }
{
    let written = match form {
        Form::Text => put(writer, Ok(()), message.text.as_slice()),
        Form::Json => match quoted(alloc, message.text.as_slice()) {
            Ok(string) => put_json(writer, number, message.kind, string.as_slice()),
            Err(AllocError) => return Err(ConversationFault::Memory),
        },
    };
    flush_after(writer, written)
}
