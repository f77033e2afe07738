//! Connections: the items of a stream, answered one after another.
ghost use Rattle.std.specs.Prelude.{◌≡◌, ◌≤◌, ◌-◌, Bool, IfErr, IfOk, List, None, OnOk, Some, codes, length, ℕ};
ghost use Rattle.counted_io.specs.Counted.{Tally};
ghost use Rattle.counted_io.specs.Writing.{Writes, WritesAfter};
ghost use Rattle.bpf_remote.specs.Answers.{sent};
ghost use Rattle.bpf_remote.specs.Connections.{IsConsole, acknowledgement, packet};
ghost use Rattle.bpf_remote.specs.Remarks.{is_told, remark_text};
ghost use Rattle.bpf_remote.specs.Packets.{Holds, framed, longest_body};
ghost use Rattle.bpf_remote.specs.Serving.{Breaks, Serves};
ghost use Rattle.bpf_remote.specs.Turning.{AnswersAsked, AnswersBody, AnswersLine, AnswersRequest, AnswersWhy, TakesTurn};
ghost use Rattle.bpf_remote.specs.Whynots.{IsAimed};

use crate::answer::append_answer;
use crate::body::Body;
use crate::manners::Manners;
use crate::number::behind;
use crate::obeying::{
    append_remark, goes_on, heed_line, is_answered, keep_conditions, manners_after, obey,
    with_moves,
};
use crate::origin::{answer_text, asked_in, show_answered, show_refused};
use crate::packet::put_packet;
use crate::parser::request_of;
use crate::remark::{Remark, remark_of};
use crate::stream::{Item, next_item};
use crate::talk::Talk;
use crate::target::Target;
use crate::whynot::{aim_in, show_aim_refusal, why_text};
use bpf_agent::Conditions;
use bpf_journal::Keeper;
use bpf_machine::Cpu;
use bpf_origin::{Wanted, What, WhatFault};
use bpf_session::{RunFault, Session};
use bpf_whynot::{Aim, AimFault};
use counted_io::{Counted, WriteFault, write_text};
use std::alloc::Global;
use std::io::{Read, Write};

/// Serves a connection: answers each packet of a stream, up to its end or until gdb leaves. The
/// writer is flushed after each answer. `wanted` has the memory for answers where a value came from;
/// more is taken only while one is told with names (without them, where it isn't there), and while it
/// is answered why a slot was not come to. `gdb` is what gdb is told of.
pub fn serve<K: Keeper, R: Read, W: Write>(
    alloc: Global,
    gdb: Target<'_>,
    session: &mut Session<K>,
    wanted: &mut Wanted,
    reader: &mut Counted<R>,
    writer: &mut Counted<W>,
) -> Result<(), RunFault>
    ensures ok { OnOk result (Serves K.holds K.refused K.room R.remaining W.contents
        (record {
          gdb = gdb.entry;
          from = session.old;
          to = session.new;
          reader = reader.old;
          reader' = reader.new;
          writer = writer.old;
          writer' = writer.new;
        })) }
    ensures err { IfErr result (λ why. Breaks K.holds K.refused K.room R.remaining W.contents why
        (record {
          gdb = gdb.entry;
          from = session.old;
          to = session.new;
          reader = reader.old;
          reader' = reader.new;
          writer = writer.old;
          writer' = writer.new;
        })) }
{
    let mut talk = Talk {
        manners: Manners {
            acknowledges: true,
            swbreak: false,
            target: gdb,
            moves: 0,
        },
        conditions: Conditions::new(),
        answer: Body::new(),
    };
    let mut request = Body::new();
    'items: loop {
        let item = match next_item(reader, &mut request) {
            Err(_) => return Err(RunFault::Read),
            Ok(item) => item,
        };
        if item.is_end() {
            return Ok(());
        }
        let on = match take_turn(alloc, session, wanted, &mut talk, item, &request, writer) {
            Err(_) => return Err(RunFault::Write),
            Ok(on) => on,
        };
        if !on {
            return Ok(());
        }
    }
}

/// Answers an item, and flushes the writer. Answers whether the connection goes on.
fn take_turn<K: Keeper, W: Write>(
    alloc: Global,
    session: &mut Session<K>,
    wanted: &mut Wanted,
    talk: &mut Talk<'_>,
    item: Item,
    request: &Body,
    writer: &mut Counted<W>,
) -> Result<bool, WriteFault>
    ensures { (on : Bool) × IfOk result (λ more. more ≡ on)
        × TakesTurn K.holds K.refused K.room W.contents
        (record { session = session.old; talk = talk.old; writer = writer.old })
        (record { session = session.new; talk = talk.new; writer = writer.new }) (result, on) (item, request.now) }
{
    let (told, on) = answer_item(alloc, session, wanted, talk, item, request, writer);
    flush(writer, told, on)
}

/// Flushes the writer where nothing failed before. Answers what it is given.
fn flush<W: Write>(
    writer: &mut Counted<W>,
    told: Result<(), WriteFault>,
    on: bool,
) -> Result<bool, WriteFault>
    ensures written { (first : Tally W) (text : List ℕ) →
        Writes W.contents first writer.old told text →
        Writes W.contents first writer.new result text }
    ensures ok { IfOk result (λ more. more ≡ on) }
{
    match told {
        Err(fault) => return Err(fault),
        Ok(()) => {}
    }
    match writer.flush() {
        Ok(()) => Ok(on),
        Err(_) => Err(WriteFault),
    }
}

/// Answers an item.
fn answer_item<K: Keeper, W: Write>(
    alloc: Global,
    session: &mut Session<K>,
    wanted: &mut Wanted,
    talk: &mut Talk<'_>,
    item: Item,
    request: &Body,
    writer: &mut Counted<W>,
) -> (Result<(), WriteFault>, bool)
    ensures { TakesTurn K.holds K.refused K.room W.contents
        (record { session = session.old; talk = talk.old; writer = writer.old })
        (record { session = session.new; talk = talk.new; writer = writer.new }) result (item, request.now) }
{
    match item {
        Item::Packet => match request.bytes() {
            Some(body) => answer_body(alloc, session, wanted, talk, body, writer),
            None => (Ok(()), true),
        },
        Item::Damaged => (write_text(writer, b"-"), true),
        Item::Again => (put_sent(writer, Ok(()), &talk.answer), true),
        Item::End => (Ok(()), true),
    }
}

/// Answers a packet with this body. Behind a line no condition is kept.
fn answer_body<K: Keeper, W: Write>(
    alloc: Global,
    session: &mut Session<K>,
    wanted: &mut Wanted,
    talk: &mut Talk<'_>,
    body: &[u8],
    writer: &mut Counted<W>,
) -> (Result<(), WriteFault>, bool)
    requires { length body.now ≤ longest_body }
    ensures { AnswersBody K.holds K.refused K.room W.contents
        (record { session = session.old; talk = talk.old; writer = writer.old })
        (record { session = session.new; talk = talk.new; writer = writer.new }) result body.now }
{
    match behind("qRcmd,", body) {
        Some(digits) => {
            let told = answer_line(alloc, session, wanted, talk, digits, writer);
            talk.conditions.clear();
            (told, true)
        }
        None => answer_request(session, talk, body, writer),
    }
}

/// Answers a line, which hexadecimal digits spell: why the program did not come to some slots, where
/// a value came from, or as a script's line.
fn answer_line<K: Keeper, W: Write>(
    alloc: Global,
    session: &mut Session<K>,
    wanted: &mut Wanted,
    talk: &mut Talk<'_>,
    digits: &[u8],
    writer: &mut Counted<W>,
) -> Result<(), WriteFault>
    requires { length digits.now ≤ longest_body }
    ensures { AnswersLine K.holds K.refused K.room W.contents
        (record { session = session.old; talk = talk.old; writer = writer.old })
        (record { session = session.new; talk = talk.new; writer = writer.new }) result digits.now }
{
    match aim_in(alloc, session, digits) {
        Some(aimed) => answer_why(alloc, session, wanted, talk, &aimed, writer),
        None => match asked_in(session.cpu(), digits) {
            Some(asked) => answer_asked(alloc, session, wanted, talk, asked, writer),
            None => answer_script(session, talk, digits, writer),
        },
    }
}

/// Answers why the program did not come to what is asked about, or why there is no answer. The session
/// stands then where it stood, but for the moves that its keeper refused to keep again.
#[inline(never)]
fn answer_why<K: Keeper, W: Write>(
    alloc: Global,
    session: &mut Session<K>,
    wanted: &mut Wanted,
    talk: &mut Talk<'_>,
    aimed: &Result<Aim, AimFault>,
    writer: &mut Counted<W>,
) -> Result<(), WriteFault>
    ensures { (asked digits : List ℕ) →
        IsAimed K.holds session.old asked aimed.now →
        AnswersWhy K.holds K.refused K.room W.contents
        (record { session = session.old; talk = talk.old; writer = writer.old })
        (record { session = session.new; talk = talk.new; writer = writer.new }) result (Some asked, digits) }
{
    let manners = talk.manners;
    let begun = acknowledge(manners, writer);
    match aimed {
        Ok(aim) => {
            let (told, left) = show_answered(
                alloc,
                manners.target.names,
                why_text(session, wanted, aim, manners.moves, manners.target.places),
                &mut talk.answer,
                writer,
                begun,
            );
            put_done(talk, left, writer, told)
        }
        Err(fault) => {
            let told = show_aim_refusal(*fault, &mut talk.answer, writer, begun);
            put_done(talk, 0, writer, told)
        }
    }
}

/// Answers where what is asked came from, or why there is no answer, as `answer_why` does.
#[inline(never)]
fn answer_asked<K: Keeper, W: Write>(
    alloc: Global,
    session: &mut Session<K>,
    wanted: &mut Wanted,
    talk: &mut Talk<'_>,
    asked: Result<Option<What>, WhatFault>,
    writer: &mut Counted<W>,
) -> Result<(), WriteFault>
    ensures { (digits : List ℕ) → AnswersAsked K.holds K.refused K.room W.contents
        (record { session = session.old; talk = talk.old; writer = writer.old })
        (record { session = session.new; talk = talk.new; writer = writer.new }) result (Some asked, digits) }
{
    let manners = talk.manners;
    let begun = acknowledge(manners, writer);
    match asked {
        Ok(what) => {
            let (told, left) = show_answered(
                alloc,
                manners.target.names,
                answer_text(session, wanted, what, manners.moves, manners.target.places),
                &mut talk.answer,
                writer,
                begun,
            );
            put_done(talk, left, writer, told)
        }
        Err(fault) => {
            let (number, text) = (fault.number(), fault.text());
            let answer = &mut talk.answer;
            let told = show_refused(b"refused V", number, text, answer, writer, begun);
            put_done(talk, 0, writer, told)
        }
    }
}

/// Writes the packet that ends what was shown, behind which so many moves fewer lie before the state.
fn put_done<W: Write>(
    talk: &mut Talk<'_>,
    left: u64,
    writer: &mut Counted<W>,
    told: Result<(), WriteFault>,
) -> Result<(), WriteFault>
    ensures manners { talk.new.manners ≡ record talk.old.manners { moves = talk.old.manners.moves - left } }
    ensures held { Holds talk.new.answer (codes "OK") }
    ensures written { WritesAfter W.contents writer.old told writer.new result (framed (sent (codes "OK"))) }
{
    talk.manners = with_moves(talk.manners.moves.saturating_sub(left), talk.manners);
    talk.answer.clear();
    talk.answer.append(b"OK");
    put_sent(writer, told, &talk.answer)
}

/// Answers a line of a script, which hexadecimal digits spell.
fn answer_script<K: Keeper, W: Write>(
    session: &mut Session<K>,
    talk: &mut Talk<'_>,
    digits: &[u8],
    writer: &mut Counted<W>,
) -> Result<(), WriteFault>
    requires { length digits.now ≤ longest_body }
    ensures { AnswersAsked K.holds K.refused K.room W.contents
        (record { session = session.old; talk = talk.old; writer = writer.old })
        (record { session = session.new; talk = talk.new; writer = writer.new }) result (None, digits.now) }
{
    let manners = talk.manners;
    let begun = acknowledge(manners, writer);
    talk.answer.clear();
    let moves = heed_line(session, digits, manners.moves, &mut talk.answer);
    talk.manners = with_moves(moves, manners);
    put_sent(writer, begun, &talk.answer)
}

/// Answers a request.
fn answer_request<K: Keeper, W: Write>(
    session: &mut Session<K>,
    talk: &mut Talk<'_>,
    body: &[u8],
    writer: &mut Counted<W>,
) -> (Result<(), WriteFault>, bool)
    ensures { AnswersRequest K.holds K.refused K.room W.contents
        (record { session = session.old; talk = talk.old; writer = writer.old })
        (record { session = session.new; talk = talk.new; writer = writer.new }) result body.now }
{
    let manners = talk.manners;
    let begun = acknowledge(manners, writer);
    let request = request_of(body);
    let (told, moves) = obey(session, &request, &talk.conditions, manners.moves);
    keep_conditions(&request, told, &mut talk.conditions);
    let dropped = moves.saturating_sub(session.kept() as u64);
    let remark = remark_of(&request, told, session.cpu(), session.limit(), dropped);
    let remarked = put_console(writer, begun, remark, session.cpu(), &mut talk.answer);
    talk.answer.clear();
    talk.manners = manners_after(&request, moves, manners);
    append_answer(told, session.cpu(), talk.manners, &mut talk.answer);
    let wrote = put_answer(writer, remarked, &talk.answer, is_answered(&request));
    (wrote, goes_on(&request))
}

/// Writes the packet of a remark, where there is to be one. The body is used for it.
fn put_console<W: Write>(
    writer: &mut Counted<W>,
    so_far: Result<(), WriteFault>,
    remark: Remark,
    cpu: &Cpu,
    body: &mut Body,
) -> Result<(), WriteFault>
    ensures { (text : List ℕ) × IsConsole (is_told remark) (remark_text remark cpu.now) text
        × WritesAfter W.contents writer.old so_far writer.new result text }
{
    if !remark.is_told() {
        return so_far;
    }
    body.clear();
    if !append_remark(remark, cpu, body) {
        return so_far;
    }
    match body.bytes() {
        Some(bytes) => put_packet(writer, so_far, bytes),
        None => so_far,
    }
}

/// Acknowledges a packet, where that is wanted.
fn acknowledge<W: Write>(manners: Manners<'_>, writer: &mut Counted<W>) -> Result<(), WriteFault>
    ensures { Writes W.contents writer.old writer.new result (acknowledgement manners.entry) }
{
    if manners.acknowledges {
        write_text(writer, b"+")
    } else {
        Ok(())
    }
}

/// Writes the packet of an answer, where there is to be one.
fn put_answer<W: Write>(
    writer: &mut Counted<W>,
    so_far: Result<(), WriteFault>,
    answer: &Body,
    is_answered: bool,
) -> Result<(), WriteFault>
    ensures { (text : List ℕ) → Holds answer.now text →
        WritesAfter W.contents writer.old so_far writer.new result (packet is_answered text) }
{
    if is_answered {
        put_sent(writer, so_far, answer)
    } else {
        so_far
    }
}

/// Writes the packet of an answer, or of an error where it is too long.
fn put_sent<W: Write>(
    writer: &mut Counted<W>,
    so_far: Result<(), WriteFault>,
    answer: &Body,
) -> Result<(), WriteFault>
    ensures { (text : List ℕ) → Holds answer.now text →
        WritesAfter W.contents writer.old so_far writer.new result (framed (sent text)) }
{
    match answer.bytes() {
        Some(bytes) => put_packet(writer, so_far, bytes),
        None => put_packet(writer, so_far, b"E10"),
    }
}
