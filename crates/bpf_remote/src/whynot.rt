//! `monitor whynot`: why the program did not come to some slots, asked of the session as it stands.
ghost use Rattle.std.specs.Prelude.{◌≡◌, ◌≤◌, ℕ, IfNone, IfOk, IfSome, List, None, Ok, Some, length};
ghost use Rattle.std.specs.Result.{result_ok};
ghost use Rattle.bpf_journal.specs.Tracks.{Track};
ghost use Rattle.bpf_remote.specs.Origins.{ComesBack, Fits, Shows};
ghost use Rattle.bpf_remote.specs.Packets.{longest_body};
ghost use Rattle.bpf_remote.specs.Whynots.{IsAimed, aim_refusal, asks_whynot, query_of};
ghost use Rattle.bpf_session.specs.Sessions.{HasPast};
ghost use Rattle.bpf_whynot.specs.Answers.{why_not};
ghost use Rattle.bpf_whynot.specs.Tables.{told_by};
ghost use Rattle.counted_io.specs.Writing.{WritesAfter};
ghost use Rattle.hex.specs.Hex.{decode_of};

use crate::body::{Body, LONGEST_BODY};
use crate::number::behind;
use crate::origin::{Answered, most_lines, show_refused};
use crate::parser::is;
use arrayvec::ArrayVec;
use bpf_journal::Keeper;
use bpf_origin::{Question, Wanted};
use bpf_session::{Refusal, Session};
use bpf_whynot::{Aim, AimFault, Search, look_why};
use bpfdb_script::SlotTexts;
use counted_io::{Counted, WriteFault};
use std::alloc::Global;
use std::io::Write;

/// What a line asks about, which hexadecimal digits spell, with from where a program can come to it,
/// or why there is no answer. None where the line doesn't ask why a slot was not come to.
pub(crate) fn aim_in<K: Keeper>(
    alloc: Global,
    session: &Session<K>,
    digits: &[u8],
) -> Option<Result<Aim, AimFault>>
    requires { length digits.now ≤ longest_body }
    ensures some { IfSome result (λ aimed. (text : List ℕ) × (asks_whynot digits.now ≡ Some text)
        × IsAimed K.holds session.now text aimed) }
    ensures none { IfNone result (asks_whynot digits.now ≡ None) }
{
    if is(digits, "7768796e6f74") {
        return Some(aim_at(alloc, session, b""));
    }
    match behind("7768796e6f7420", digits) {
        Some(rest) => aim_by(alloc, session, rest),
        None => None,
    }
}

/// What the text asks about that hexadecimal digits spell, None where they spell none.
#[inline(never)]
fn aim_by<K: Keeper>(
    alloc: Global,
    session: &Session<K>,
    digits: &[u8],
) -> Option<Result<Aim, AimFault>>
    requires { length digits.now ≤ longest_body }
    ensures some { IfSome result (λ aimed. (text : List ℕ)
        × (result_ok (decode_of digits.now) ≡ Some text) × IsAimed K.holds session.now text aimed) }
    ensures none { IfNone result (result_ok (decode_of digits.now) ≡ None) }
{
    let len = digits.len() / 2;
    let mut buffer = [0; LONGEST_BODY / 2];
    let text = &mut buffer[..len];
    match hex::decode_to_slice(digits, text) {
        Ok(()) => Some(aim_at(alloc, session, text)),
        Err(_) => None,
    }
}

/// What a text asks about.
fn aim_at<K: Keeper>(alloc: Global, session: &Session<K>, text: &[u8]) -> Result<Aim, AimFault>
    ensures { IsAimed K.holds session.now text.now result }
{
    session.invariant();
    Aim::find(alloc, session.cpu(), session.keeper(), text)
}

/// Shows why there is no answer.
pub(crate) fn show_aim_refusal<W: Write>(
    fault: AimFault,
    body: &mut Body,
    writer: &mut Counted<W>,
    so_far: Result<(), WriteFault>,
) -> Result<(), WriteFault>
    ensures { (text told : List ℕ) × Shows text told × Fits (aim_refusal fault) text
        × WritesAfter W.contents writer.old so_far writer.new result told }
{
    match fault {
        AimFault::Goal(fault) => show_refused(
            b"refused V",
            fault.number(),
            fault.text(),
            body,
            writer,
            so_far,
        ),
        AimFault::OutOfMemory => show_refused(
            b"refused Q",
            Refusal::OutOfMemory.number(),
            Refusal::OutOfMemory.text(),
            body,
            writer,
            so_far,
        ),
    }
}

/// Writes the answer about some slots, before whose state so many moves lie, into a text. The session
/// stands then where it stood, but for the moves that its keeper refused to keep again.
#[inline(never)]
pub(crate) fn why_text<K: Keeper>(
    session: &mut Session<K>,
    wanted: &mut Wanted,
    aim: &Aim,
    moves: u64,
    places: SlotTexts<'_>,
) -> Answered
    ensures back { (asked : List ℕ) → IsAimed K.holds session.old asked (Ok aim.now) →
        ComesBack K.holds K.refused K.room session.old session.new result.left }
    ensures text { (asked : List ℕ) (aims : IsAimed K.holds session.old asked (Ok aim.now)) →
        IfOk result.written (λ _. (t : Track) → HasPast K.holds session.old t →
        result.text.items ≡ (why_not (told_by aim.now.reach)
        (query_of places.entry moves aims.0 t session.old.moment.state) t.history
        session.old.moment.state).text) }
{
    session.invariant();
    let question = Question {
        addresses: false,
        lines: most_lines(places),
        opening: session.kept() as u64 == moves,
        places,
    };
    let search = Search {
        reach: &aim.reach,
        goals: aim.goals.as_slice(),
        made: aim.made,
        question,
        alone: false,
    };
    let mut writer = Counted::new(ArrayVec::new());
    let looked = look_why(session.course_mut(), &search, wanted, &mut writer, Ok(()));
    Answered {
        text: writer.into_inner(),
        written: looked.written,
        left: looked.left,
    }
}
