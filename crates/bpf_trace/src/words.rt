//! What rows tell of a program's slots, made before its first step.
ghost use Rattle.std.specs.Prelude.{◌≡◌, ℕ, [], IfOk, drop, if◌then◌else◌, map};
ghost use Rattle.bpf_trace.specs.Objects.{place_members};
ghost use Rattle.bpf_trace.specs.Rows.{told_in};
ghost use Rattle.bpf_trace.specs.SlotWords.{AreWords, members_at};
ghost use Rattle.bpf_trace.specs.UnwrittenTexts.{call_text, called_by};
ghost use Rattle.bpfdb_script.specs.SlotTexts.{text_of_slot};

use crate::form::Form;
use crate::trace::Shown;
use answer_forms::push_places;
use bpf_cover::Texts;
use bpf_isa::Program;
use bpfdb_script::{SlotTexts, text_of_slot};
use std::alloc::{AllocError, Global};

/// The texts of its instructions, and the members of objects that say where its slots stand: none for
/// rows of text.
#[derive(Drop)]
pub struct Words {
    pub texts: Texts,
    pub members: Vec<Vec<u8>>,
}

impl Words {
    /// Makes them, and takes all memory for them.
    pub fn of(alloc: Global, program: &Program, shown: &Shown<'_>) -> Result<Words, AllocError>
        ensures { IfOk result (AreWords shown.now program.now) }
    {
        let texts = Texts::of(alloc, program)?;
        let members = members_for(alloc, shown)?;
        Ok(Words { texts, members })
    }
}

/// What is told of a slot with this text in the form of what is shown, or nothing where it isn't told.
#[inline(always)]
pub fn told_in<'a>(
    words: &'a Words,
    shown: &Shown<'a>,
    slot: usize,
    text: &'a [u8],
    is_told: bool,
) -> &'a [u8]
    requires text { text.now ≡ text_of_slot shown.now.places slot }
    requires members { shown.now.form ≡ Form.Json → members_at words.now.members.items slot
        ≡ place_members (text_of_slot shown.now.places slot) }
    ensures { result.now ≡ told_in shown.now.form
        (if is_told then text_of_slot shown.now.places slot else []) }
{
    match shown.form {
        Form::Text => { if is_told { text } else { &[] } }
        Form::Json => {
            if is_told {
                text_of_slot(Some(words.members.as_slice()), slot)
            } else {
                &[]
            }
        }
    }
}

/// The members that say where slots stand, where rows are objects.
fn members_for(alloc: Global, shown: &Shown<'_>) -> Result<Vec<Vec<u8>>, AllocError>
    ensures { IfOk result (λ members. shown.now.form ≡ Form.Json → (slot : ℕ) →
        members_at members.items slot ≡ place_members (text_of_slot shown.now.places slot)) }
{
    match shown.form {
        Form::Text => Ok(Vec::new(alloc)),
        Form::Json => members_of(alloc, shown.places),
    }
}

/// The members that say where slots stand.
fn members_of(alloc: Global, places: SlotTexts<'_>) -> Result<Vec<Vec<u8>>, AllocError>
    ensures { IfOk result (λ members. (slot : ℕ) → members_at members.items slot
        ≡ place_members (text_of_slot places.entry slot)) }
{
    match places {
        Some(places) => {
            let members = members_in(alloc, places)?;
            Ok(members)
        }
        None => Ok(Vec::new(alloc)),
    }
}

/// Those of each text.
fn members_in(alloc: Global, texts: &[Vec<u8>]) -> Result<Vec<Vec<u8>>, AllocError>
    ensures { IfOk result (λ members. map (λ text. text.items) members.items
        ≡ map (λ text. place_members text.items) texts.now) }
{
    let mut members = Vec::new(alloc);
    for k in 0..texts.len() {
        let made = place_members(alloc, texts[k].as_slice())?;
        match members.push(made) {
            Ok(()) => {}
            Err(_) => return Err(AllocError),
        }
    }
    Ok(members)
}

/// The members that a text of a slot comes to.
fn place_members(alloc: Global, told: &[u8]) -> Result<Vec<u8>, AllocError>
    ensures { IfOk result (λ members. members.items ≡ place_members told.now) }
{
    let mut members = Vec::new(alloc);
    push_places(alloc, &mut members, behind_two(told))?;
    Ok(members)
}

/// What stands behind a semicolon and a blank.
fn behind_two(told: &[u8]) -> &[u8]
    ensures { result.now ≡ drop 2 told.now }
{
    if told.len() < 2 { &[] } else { &told[2..] }
}

/// The members that say where a call stands, if there is one.
pub fn call_members(
    alloc: Global,
    places: SlotTexts<'_>,
    call: Option<u16>,
) -> Result<Vec<u8>, AllocError>
    ensures { IfOk result (λ members. members.items ≡ place_members (call_text places.entry call)) }
{
    match call {
        Some(slot) => called_members(alloc, text_of_slot(places, usize::from(slot))),
        None => Ok(Vec::new(alloc)),
    }
}

/// Those of a call by what is told of its slot.
fn called_members(alloc: Global, told: &[u8]) -> Result<Vec<u8>, AllocError>
    ensures { IfOk result (λ members. members.items ≡ place_members (called_by told.now)) }
{
    let mut members = Vec::new(alloc);
    if told.len() < 5 {
        return Ok(members);
    }
    let mut called = Vec::from_slice(alloc, b"called by ")?;
    called.extend_from_slice(told.split_at(5).1)?;
    push_places(alloc, &mut members, called.as_slice())?;
    Ok(members)
}
