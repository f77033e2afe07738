//! Questions, answered by a session as it stands.
ghost use Rattle.std.specs.Prelude.{◌≡◌, ◌-◌, ℕ, IfErr, IfOk, List, codes};
ghost use Rattle.bpf_journal.specs.Tracks.{Track};
ghost use Rattle.bpf_origin.specs.Asked.{answer_about, parts_asked};
ghost use Rattle.bpf_remote.specs.Origins.{ComesBack, named_by, refused_line};
ghost use Rattle.bpf_session.specs.Sessions.{HasPast};
ghost use Rattle.bpf_whynot.specs.Aims.{AimsAt, IsNoAim};
ghost use Rattle.bpf_whynot.specs.Answers.{why_not};
ghost use Rattle.bpf_whynot.specs.Asked.{goals_in};
ghost use Rattle.bpf_lines.specs.DebugInfos.{AreWhole, no_place_line};
ghost use Rattle.bpf_questions.specs.Refusals.{goal_refusal, lacks_place};
ghost use Rattle.bpf_whynot.specs.Tables.{told_by};
ghost use Rattle.bpfdb_script.specs.Lines.{tokens};
ghost use Rattle.bpf_questions.specs.Conversations as spec;
ghost use Rattle.bpf_questions.specs.Hearing.{said_of};
ghost use Rattle.bpf_questions.specs.Inquiries.{what_by};
ghost use Rattle.bpf_questions.specs.declared.message.Kind.TheVariants as the_kind;

use crate::inquiry::{Inquiry, Topic, what_in};
use crate::message::{Kind, Message};
use crate::obeying::{Heard, refused};
use crate::stop::Past;
use crate::view::View;
use bpf_journal::Keeper;
use bpf_lines::{Names, is_place, put_named, put_no_place};
use bpf_machine::Cpu;
use bpf_origin::{Question, Wanted, What, WhatFault, look_back, parts_asked};
use bpf_session::Session;
use bpf_whynot::{Aim, AimFault, GoalFault, Search, look_why};
use counted_io::{Counted, Piece, WriteFault, put_all};
use std::alloc::{AllocError, Global};

/// An answer in memory.
#[derive(Drop)]
struct Found {
    text: Vec<u8>,
    /// How many of the moves that were taken back for it the session's keeper refused to keep again.
    left: u64,
}

/// How it is asked of a session before whose state so many moves lie.
fn question_of<'a, K: Keeper>(view: &View<'a>, session: &Session<K>, moves: u64) -> Question<'a>
    ensures { (t : Track) → HasPast K.holds session.now t → result ≡ spec.question_of view.now moves t }
{
    Question {
        addresses: false,
        lines: view.lines,
        opening: session.kept() as u64 == moves,
        places: view.places,
    }
}

/// What a text asks `origin` about in a machine: where it is empty, what is of interest there.
fn what_asked(cpu: &Cpu, text: &[u8]) -> Result<Option<What>, WhatFault>
    ensures { result ≡ spec.what_asked cpu.now text.now }
{
    if text.is_empty() {
        return Ok(None);
    }
    match What::find(text, cpu) {
        Ok(what) => Ok(Some(what)),
        Err(fault) => Err(fault),
    }
}

/// The answer where the values of a session's state came from.
fn origin_found<K: Keeper>(
    alloc: Global,
    view: &View<'_>,
    wanted: &mut Wanted,
    session: &mut Session<K>,
    moves: u64,
    what: Option<What>,
) -> Result<Found, AllocError>
    ensures back { IfOk result (λ found. ComesBack K.holds K.refused K.room session.old session.new found.left) }
    ensures text { IfOk result (λ found. (t : Track) → HasPast K.holds session.old t →
        found.text.items ≡ (answer_about (spec.question_of view.now moves t)
        (parts_asked session.old.moment.state what) t.history session.old.moment.state).text) }
{
    let question = question_of(view, session, moves);
    let parts = parts_asked(session.cpu(), what);
    let mut writer = Counted::new(Vec::new(alloc));
    let looked = look_back(
        session.course_mut(),
        wanted,
        parts.as_slice(),
        question,
        &mut writer,
        Ok(()),
    );
    match looked.written {
        Ok(()) => Ok(Found {
            text: writer.into_inner(),
            left: looked.left,
        }),
        Err(WriteFault) => Err(AllocError),
    }
}

/// What a text asks `whynot` about of a session, and from where its program can come there.
fn aim_at<K: Keeper>(alloc: Global, session: &Session<K>, text: &[u8]) -> Result<Aim, AimFault>
    ensures ok { IfOk result (AimsAt K.holds session.now.moment.keeper session.now.moment.state text.now) }
    ensures err { IfErr result (IsNoAim session.now.moment.state.program text.now) }
{
    session.invariant();
    Aim::find(alloc, session.cpu(), session.keeper(), text)
}

/// The answer why a session's program did not come to some slots.
fn whynot_found<K: Keeper>(
    alloc: Global,
    view: &View<'_>,
    wanted: &mut Wanted,
    session: &mut Session<K>,
    moves: u64,
    aim: &Aim,
) -> Result<Found, AllocError>
    ensures back { (asked : List ℕ) →
        AimsAt K.holds session.old.moment.keeper session.old.moment.state asked aim.now →
        IfOk result (λ found. ComesBack K.holds K.refused K.room session.old session.new found.left) }
    ensures text { (asked : List ℕ)
        (aims : AimsAt K.holds session.old.moment.keeper session.old.moment.state asked aim.now) →
        IfOk result (λ found. (t : Track) → HasPast K.holds session.old t → found.text.items
        ≡ (why_not (told_by aim.now.reach) (spec.query_of view.now moves aims.0 t session.old.moment.state)
        t.history session.old.moment.state).text) }
{
    session.invariant();
    let search = Search {
        reach: &aim.reach,
        goals: aim.goals.as_slice(),
        made: aim.made,
        question: question_of(view, session, moves),
        alone: false,
    };
    let mut writer = Counted::new(Vec::new(alloc));
    let looked = look_why(session.course_mut(), &search, wanted, &mut writer, Ok(()));
    match looked.written {
        Ok(()) => Ok(Found {
            text: writer.into_inner(),
            left: looked.left,
        }),
        Err(WriteFault) => Err(AllocError),
    }
}

/// A text with the names of the places that it tells, where they are known.
fn named(alloc: Global, names: Option<&Names<'_>>, text: Vec<u8>) -> Result<Vec<u8>, AllocError>
    ensures { IfOk result (λ named. named.items ≡ named_by names.entry text.items) }
{
    let Some(names) = names else {
        return Ok(text);
    };
    let mut writer = Counted::new(Vec::new(alloc));
    match put_named(&mut writer, Ok(()), names, text.as_slice()) {
        Ok(()) => Ok(writer.into_inner()),
        Err(WriteFault) => Err(AllocError),
    }
}

/// An answer as it is said, behind which so many moves fewer lie before the state.
fn said(
    alloc: Global,
    view: &View<'_>,
    found: Found,
    past: Past,
) -> Result<(Heard, Past), AllocError>
    ensures { IfOk result (λ heard. (said_of heard.0
        ≡ spec.says the_kind.Answer (named_by view.now.names found.text.items))
        × (heard.1 ≡ record past { moves = past.moves - found.left })) }
{
    let Found { text, left } = found;
    let text = named(alloc, view.names, text)?;
    let message = Message {
        kind: Kind::Answer,
        text,
    };
    let moves = past.moves.saturating_sub(left);
    Ok((Heard::Says(message), Past { moves, ..past }))
}

/// That a question is refused.
fn refused_question(alloc: Global, number: u8, text: &str) -> Result<Heard, AllocError>
    ensures { IfOk result (λ heard. said_of heard ≡ spec.says the_kind.Refused
        (refused_line (codes "refused V") number text.now)) }
{
    let pieces = [
        Piece::Text(b"refused V"),
        Piece::Decimal(u64::from(number)),
        Piece::Text(b": "),
        Piece::Text(text.as_bytes()),
        Piece::Text(b"\n"),
    ];
    let mut writer = Counted::new(Vec::new(alloc));
    match put_all(&mut writer, Ok(()), &pieces) {
        Ok(()) => Ok(Heard::Says(Message {
            kind: Kind::Refused,
            text: writer.into_inner(),
        })),
        Err(WriteFault) => Err(AllocError),
    }
}

/// Answers where the values came from that a text names.
fn answer_origin<K: Keeper>(
    alloc: Global,
    view: &View<'_>,
    wanted: &mut Wanted,
    session: &mut Session<K>,
    past: Past,
    text: &[u8],
) -> Result<(Heard, Past), AllocError>
    ensures { IfOk result (λ heard. spec.AnswersOrigin K.holds K.refused K.room view.now (session.old, past)
        (session.new, heard.1) (spec.what_asked session.old.moment.state text.now) (said_of heard.0)) }
{
    match what_asked(session.cpu(), text) {
        Ok(what) => {
            let found = origin_found(alloc, view, wanted, session, past.moves, what)?;
            said(alloc, view, found, past)
        }
        Err(fault) => Ok((refused_question(alloc, fault.number(), fault.text())?, past)),
    }
}

/// Whether a text names a place that has no slot.
fn lacks_place(fault: GoalFault, text: &[u8]) -> bool
    ensures { result ≡ lacks_place fault text.now }
{
    match fault {
        GoalFault::NoSlot => is_place(text),
        _ => false,
    }
}

/// That no slot has the place of a name.
fn refused_place(alloc: Global, name: &[u8]) -> Result<Heard, AllocError>
    ensures { IfOk result (λ heard. said_of heard ≡ spec.says the_kind.Refused (no_place_line name.now)) }
{
    let mut writer = Counted::new(Vec::new(alloc));
    match put_no_place(&mut writer, Ok(()), name) {
        Ok(()) => Ok(Heard::Says(Message {
            kind: Kind::Refused,
            text: writer.into_inner(),
        })),
        Err(WriteFault) => Err(AllocError),
    }
}

/// That the slots that a text asks about are refused.
fn refused_slots(alloc: Global, fault: GoalFault, text: &[u8]) -> Result<Heard, AllocError>
    ensures { IfOk result (λ heard. said_of heard ≡ spec.says the_kind.Refused (goal_refusal fault text.now)) }
{
    if lacks_place(fault, text) {
        refused_place(alloc, text)
    } else {
        refused_question(alloc, fault.number(), fault.text())
    }
}

/// Answers why the program did not come to the slots that a text names, which asked about them as `text`.
fn answer_slots<K: Keeper>(
    alloc: Global,
    view: &View<'_>,
    wanted: &mut Wanted,
    session: &mut Session<K>,
    past: Past,
    text: &[u8],
    slots: &[u8],
) -> Result<(Heard, Past), AllocError>
    ensures { IfOk result (λ heard. spec.AnswersSlots K.holds K.refused K.room view.now (session.old, past)
        (session.new, heard.1) text.now (goals_in session.old.moment.state.program slots.now) (said_of heard.0)) }
{
    match aim_at(alloc, session, slots) {
        Ok(aim) => {
            let found = whynot_found(alloc, view, wanted, session, past.moves, &aim)?;
            said(alloc, view, found, past)
        }
        Err(AimFault::Goal(fault)) => Ok((refused_slots(alloc, fault, text)?, past)),
        Err(AimFault::OutOfMemory) => Err(AllocError),
    }
}

/// Answers why the program did not come to the slots that a text asks about.
fn answer_whynot<K: Keeper>(
    alloc: Global,
    view: &View<'_>,
    wanted: &mut Wanted,
    session: &mut Session<K>,
    past: Past,
    text: &[u8],
) -> Result<(Heard, Past), AllocError>
    requires { AreWhole view.now.info }
    ensures { IfOk result (λ heard. spec.AnswersWhynot K.holds K.refused K.room view.now (session.old, past)
        (session.new, heard.1) text.now (said_of heard.0)) }
{
    let Ok(slots) = view.info.slots(alloc, text) else {
        return Err(AllocError);
    };
    answer_slots(alloc, view, wanted, session, past, text, slots.as_slice())
}

/// Answers a question to a session, before whose state this lies. Says what lies before it then.
pub(crate) fn answer<K: Keeper>(
    alloc: Global,
    view: &View<'_>,
    wanted: &mut Wanted,
    session: &mut Session<K>,
    past: Past,
    inquiry: Inquiry<'_>,
) -> Result<(Heard, Past), AllocError>
    requires { AreWhole view.now.info }
    ensures { IfOk result (λ heard. spec.AnswersInquiry K.holds K.refused K.room view.now (session.old, past)
        (session.new, heard.1) inquiry.entry.topic (what_by (tokens inquiry.entry.words.now)) (said_of heard.0)) }
{
    match what_in(inquiry.words) {
        Ok(text) => match inquiry.topic {
            Topic::Origin => answer_origin(alloc, view, wanted, session, past, text),
            Topic::Whynot => answer_whynot(alloc, view, wanted, session, past, text),
        },
        Err(refusal) => Ok((refused(alloc, refusal)?, past)),
    }
}
