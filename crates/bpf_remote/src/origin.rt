//! `monitor origin`: where a value came from, asked of the session as it stands.
ghost use Rattle.std.specs.Prelude.{◌≡◌, ◌≤◌, ◌⊎◌, ◌∷◌, ℕ, IfOk, List, MatchResult, Some, length};
ghost use Rattle.std.specs.Option.{option_map};
ghost use Rattle.std.specs.Result.{result_ok};
ghost use Rattle.bpf_journal.specs.Tracks.{Track};
ghost use Rattle.bpf_lines.specs.NamedTexts.{named_text};
ghost use Rattle.bpf_origin.specs.Asked.{answer_about, parts_asked};
ghost use Rattle.bpf_remote.specs.Numbers.{hex_text};
ghost use Rattle.bpf_remote.specs.Origins.{ComesBack, Fits, FitsNamed, Shows, asked_in, longest_part, most_lines, named_in, question_of, refused_line, too_long};
ghost use Rattle.bpf_remote.specs.Packets.{framed, longest_body};
ghost use Rattle.bpf_session.specs.Sessions.{HasPast};
ghost use Rattle.counted_io.specs.Writing.{WritesAfter};
ghost use Rattle.hex.specs.Hex.{decode_of};

use crate::body::{Body, LONGEST_BODY};
use crate::number::behind;
use crate::packet::put_packet;
use crate::parser::is;
use arrayvec::ArrayVec;
use bpf_journal::Keeper;
use bpf_lines::{Names, put_named};
use bpf_machine::Cpu;
use bpf_origin::{Question, Wanted, What, WhatFault, look_back, parts_asked};
use bpf_session::Session;
use bpfdb_script::SlotTexts;
use counted_io::{Counted, WriteFault, put, put_decimal};
use std::alloc::Global;
use std::io::Write;

/// The longest answer, in bytes.
const LONGEST_ANSWER: usize = 32768;

/// The longest part of a text that a packet shows, in bytes: two digits for each, behind an `O`.
const LONGEST_PART: usize = 8191;

/// The text of an answer.
type Text = ArrayVec<u8, LONGEST_ANSWER>;

/// The line of a refusal.
type Line = ArrayVec<u8, 64>;

/// An answer. It takes much of the stack: it is handed on as it comes, and no variable holds it meanwhile.
#[derive(Drop)]
pub(crate) struct Answered {
    pub text: Text,
    /// Whether the whole text had room.
    pub written: Result<(), WriteFault>,
    /// How many moves the session's keeper refused to keep again.
    pub left: u64,
}

/// The most lines of moves that are told: fewer where places stand in them, so that they fit as well.
pub(crate) fn most_lines(places: SlotTexts<'_>) -> u64
    ensures { result ≡ most_lines places.entry }
{
    match places {
        None => 500,
        Some(_) => 250,
    }
}

/// What a line asks about a machine, which hexadecimal digits spell, or why that is refused. None
/// where the line doesn't ask where a value came from.
pub(crate) fn asked_in(cpu: &Cpu, digits: &[u8]) -> Option<Result<Option<What>, WhatFault>>
    requires { length digits.now ≤ longest_body }
    ensures { result ≡ asked_in cpu.now digits.now }
{
    if is(digits, "6f726967696e") {
        return Some(Ok(None));
    }
    match behind("6f726967696e20", digits) {
        Some(rest) => named_by(cpu, rest),
        None => None,
    }
}

/// What the text names in a machine that hexadecimal digits spell, None where they spell none.
fn named_by(cpu: &Cpu, digits: &[u8]) -> Option<Result<Option<What>, WhatFault>>
    requires { length digits.now ≤ longest_body }
    ensures { result ≡ option_map (λ text. named_in cpu.now (Some text))
        (result_ok (decode_of digits.now)) }
{
    let len = digits.len() / 2;
    let mut buffer = [0; LONGEST_BODY / 2];
    match hex::decode_to_slice(digits, &mut buffer[..len]) {
        Ok(()) => Some(named_in(cpu, &buffer[..len])),
        Err(_) => None,
    }
}

/// What a text names in a machine.
fn named_in(cpu: &Cpu, text: &[u8]) -> Result<Option<What>, WhatFault>
    ensures { result ≡ named_in cpu.now (Some text.now) }
{
    match What::find(text, cpu) {
        Ok(what) => Ok(Some(what)),
        Err(fault) => Err(fault),
    }
}

/// Writes the answer about what is asked, before whose state so many moves lie, into a text. The
/// session stands then where it stood, but for the moves that its keeper refused to keep again.
#[inline(never)]
pub(crate) fn answer_text<K: Keeper>(
    session: &mut Session<K>,
    wanted: &mut Wanted,
    what: Option<What>,
    moves: u64,
    places: SlotTexts<'_>,
) -> Answered
    ensures back { ComesBack K.holds K.refused K.room session.old session.new result.left }
    ensures text { IfOk result.written (λ _. (t : Track) → HasPast K.holds session.old t →
        result.text.items ≡ (answer_about (question_of places.entry moves t)
        (parts_asked session.old.moment.state what) t.history session.old.moment.state).text) }
{
    let question = Question {
        addresses: false,
        lines: most_lines(places),
        opening: session.kept() as u64 == moves,
        places,
    };
    let parts = parts_asked(session.cpu(), what);
    let mut writer = Counted::new(ArrayVec::new());
    let looked = look_back(
        session.course_mut(),
        wanted,
        parts.as_slice(),
        question,
        &mut writer,
        Ok(()),
    );
    Answered {
        text: writer.into_inner(),
        written: looked.written,
        left: looked.left,
    }
}

/// Writes the line of a refusal, behind its first words and its letter.
fn put_refused<W: Write>(
    writer: &mut Counted<W>,
    so_far: Result<(), WriteFault>,
    begin: &[u8],
    number: u8,
    text: &str,
) -> Result<(), WriteFault>
    ensures { WritesAfter W.contents writer.old so_far writer.new result
        (refused_line begin.now number text.now) }
{
    let begun = put(writer, so_far, begin);
    let numbered = put_decimal(writer, begun, u64::from(number));
    let parted = put(writer, numbered, b": ");
    let told = put(writer, parted, text.as_bytes());
    put(writer, told, b"\n")
}

/// Shows gdb's user an answer, if it was written whole, with the names of the places that it tells
/// where these are known; or that it is too long. Says how many moves the session's keeper refused to
/// keep again.
#[inline(never)]
pub(crate) fn show_answered<W: Write>(
    alloc: Global,
    names: Option<&Names<'_>>,
    answered: Answered,
    body: &mut Body,
    writer: &mut Counted<W>,
    so_far: Result<(), WriteFault>,
) -> (Result<(), WriteFault>, u64)
    ensures shows { (shown told : List ℕ) × Shows shown told
        × MatchResult answered.written (λ _. FitsNamed names.entry answered.text.items shown)
        (λ _. shown ≡ too_long)
        × WritesAfter W.contents writer.old so_far writer.new result.0 told }
    ensures left { result.1 ≡ answered.left }
{
    let left = answered.left;
    let text = answered.text.as_slice();
    match (names, &answered.written) {
        (Some(names), Ok(())) => (show_named(alloc, names, text, body, writer, so_far), left),
        (_, written) => (show_text(text, written, body, writer, so_far), left),
    }
}

/// Shows gdb's user a text with the names of the places that it tells, or without them where there is
/// no memory for that.
fn show_named<W: Write>(
    alloc: Global,
    names: &Names<'_>,
    text: &[u8],
    body: &mut Body,
    writer: &mut Counted<W>,
    so_far: Result<(), WriteFault>,
) -> Result<(), WriteFault>
    ensures { (shown told : List ℕ) × Shows shown told
        × ((shown ≡ named_text names.now text.now) ⊎ (shown ≡ text.now))
        × WritesAfter W.contents writer.old so_far writer.new result told }
{
    let mut named = Counted::new(Vec::new(alloc));
    match put_named(&mut named, Ok(()), names, text) {
        Ok(()) => {
            let named = named.into_inner();
            show(named.as_slice(), body, writer, so_far)
        }
        Err(WriteFault) => show(text, body, writer, so_far),
    }
}

/// Shows gdb's user the line of a refusal, behind its first words and its letter.
pub(crate) fn show_refused<W: Write>(
    begin: &[u8],
    number: u8,
    text: &str,
    body: &mut Body,
    writer: &mut Counted<W>,
    so_far: Result<(), WriteFault>,
) -> Result<(), WriteFault>
    ensures { (shown told : List ℕ) × Shows shown told
        × Fits (refused_line begin.now number text.now) shown
        × WritesAfter W.contents writer.old so_far writer.new result told }
{
    let mut line = Counted::new(Line::new());
    let written = put_refused(&mut line, Ok(()), begin, number, text);
    let text = line.into_inner();
    show_text(text.as_slice(), &written, body, writer, so_far)
}

/// Shows gdb's user a text, if it was written whole, or that it is too long.
fn show_text<W: Write>(
    text: &[u8],
    written: &Result<(), WriteFault>,
    body: &mut Body,
    writer: &mut Counted<W>,
    so_far: Result<(), WriteFault>,
) -> Result<(), WriteFault>
    ensures { (shown told : List ℕ) × Shows shown told
        × MatchResult written.now (λ _. shown ≡ text.now) (λ _. shown ≡ too_long)
        × WritesAfter W.contents writer.old so_far writer.new result told }
{
    match written {
        Ok(()) => show(text, body, writer, so_far),
        Err(_) => show(
            b"cut: the answer has more than 32768 bytes\n",
            body,
            writer,
            so_far,
        ),
    }
}

/// Shows gdb's user a text, in packets. The body is used for them.
fn show<W: Write>(
    text: &[u8],
    body: &mut Body,
    writer: &mut Counted<W>,
    so_far: Result<(), WriteFault>,
) -> Result<(), WriteFault>
    ensures { (told : List ℕ) × Shows text.now told
        × WritesAfter W.contents writer.old so_far writer.new result told }
{
    let mut rest = text;
    let mut told = so_far;
    while !rest.is_empty() {
        let (part, others) = rest.split_at(part_len(rest));
        told = show_part(part, body, writer, told);
        rest = others;
    }
    told
}

/// How many bytes of a text the next packet shows.
fn part_len(rest: &[u8]) -> usize
    requires { 1 ≤ length rest.now }
    ensures some { 1 ≤ result }
    ensures short { result ≤ longest_part }
    ensures within { result ≤ length rest.now }
{
    if rest.len() < LONGEST_PART {
        rest.len()
    } else {
        LONGEST_PART
    }
}

/// Shows gdb's user a part of a text, in a packet.
fn show_part<W: Write>(
    part: &[u8],
    body: &mut Body,
    writer: &mut Counted<W>,
    so_far: Result<(), WriteFault>,
) -> Result<(), WriteFault>
    requires { length part.now ≤ longest_part }
    ensures { WritesAfter W.contents writer.old so_far writer.new result
        (framed (79 ∷ hex_text part.now)) }
{
    body.clear();
    body.append(b"O");
    body.append_hex(part);
    match body.bytes() {
        Some(bytes) => put_packet(writer, so_far, bytes),
        None => unreachable!(),
    }
}
