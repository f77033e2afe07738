//! The first round over a listing: its labels, its statements in their places, and the faults of
//! its lines.
ghost use Rattle.std.specs.Prelude.{◌≡◌, ◌≤◌, ◌+◌, ℕ, List, IfOk, IfErr, OnOk, Ok, Err, map, nat_le, if◌then◌else◌};
ghost use Rattle.bpf_isa.specs.Checker.{most_slots};
ghost use Rattle.counted_io.specs.Lines.{lines};
ghost use Rattle.bpf_text.specs.Scaffolding.Lines.{read_line, MemoryOr};
ghost use Rattle.bpf_text.specs.Scaffolding.Rounds.{first_round, nothing, line_end, slot_after, label_of, labels_with, statement_of, statement_or_none, placed_with};
ghost use Rattle.bpf_text.specs.Scaffolding.Labels.{labels_in, labels_of, placed_of};

use crate::fault::{AsmFault, LineFault};
use crate::read::labels::{Definition, LabelMap, definition_of, put_label};
use crate::read::line::{Line, read_line};
use crate::read::statement::Statement;
use crate::read::text_key::TextKey;
use bpf_isa::MOST_SLOTS;
use counted_io::sides;
use indexmap::IndexMap;
use std::alloc::{AllocError, Global};

/// A statement in its place.
#[derive(Drop)]
pub struct Placed<'a> {
    /// Its line, counted from 1.
    pub line: usize,
    /// Its slot.
    pub slot: u16,
    pub statement: Statement<'a>,
}

/// The labels of a listing and where they stand, and its statements in their places.
#[derive(Drop)]
pub struct Outline<'a> {
    pub labels: LabelMap<'a>,
    pub placed: Vec<Placed<'a>>,
}

impl<'a> Outline<'a> {
    /// Puts what a line says at a slot.
    fn push(
        &mut self,
        slot: u16,
        line_number: usize,
        line: Result<Line<'a>, LineFault>,
    ) -> Result<(), AllocError>
        ensures labels { OnOk result ((q : List ℕ) → labels_of self.new q
            ≡ labels_with (labels_of self.old) (record { line = line_number; slot = slot })
            (label_of line.entry) q) }
        ensures placed { OnOk result (placed_of self.new
            ≡ placed_with (placed_of self.old) slot line_number (statement_of line.entry)) }
    {
        match line {
            Err(_) => Ok(()),
            Ok(Line { label, statement }) => {
                let definition = Definition {
                    line: line_number,
                    slot,
                };
                put_label(&mut self.labels, label, definition)?;
                push_statement(&mut self.placed, slot, line_number, statement)
            }
        }
    }
}

fn push_statement<'a>(
    placed: &mut Vec<Placed<'a>>,
    slot: u16,
    line: usize,
    statement: Result<Option<Statement<'a>>, LineFault>,
) -> Result<(), AllocError>
    ensures { OnOk result (placed.new.items
        ≡ placed_with placed.old.items slot line (statement_or_none statement.entry)) }
{
    match statement {
        Ok(Some(statement)) => {
            let next = Placed {
                line,
                slot,
                statement,
            };
            match placed.push(next) {
                Ok(()) => Ok(()),
                Err(_) => Err(AllocError),
            }
        }
        _ => Ok(()),
    }
}

/// The labels and the statements of a listing, or its first fault of the first round. Each line is
/// read once.
pub fn first_round(alloc: Global, text: &[u8]) -> Result<Outline<'_>, AsmFault>
    ensures ok { IfOk result (λ outline.
        first_round nothing 0 1 (map read_line (lines text.now))
        ≡ Ok (labels_of outline, placed_of outline)) }
    ensures err { IfErr result
        (MemoryOr (first_round nothing 0 1 (map read_line (lines text.now)))) }
{
    let mut outline = Outline {
        labels: IndexMap::with_hasher(alloc, TextKey::of(text)),
        placed: Vec::new(alloc),
    };
    let mut slot = 0;
    let mut line_number = 1;
    let mut rest = text;
    while !rest.is_empty() {
        let (first, others) = sides(rest, b'\n');
        let line = read_line(first);
        match line_end(&outline.labels, slot, &line) {
            Ok(next) => match outline.push(slot as u16, line_number, line) {
                Ok(()) => slot = next,
                Err(_) => return Err(AsmFault::Memory),
            },
            Err(fault) => return Err(AsmFault::Line(fault, line_number)),
        }
        rest = others;
        line_number += 1;
    }
    Ok(outline)
}

/// The slot after a line, or its first fault.
fn line_end(
    labels: &LabelMap<'_>,
    slot: usize,
    line: &Result<Line<'_>, LineFault>,
) -> Result<usize, LineFault>
    requires { slot ≤ most_slots }
    ensures value { result ≡ line_end (labels_in labels.now) slot line.now }
    ensures within { IfOk result (λ next. next ≤ most_slots) }
{
    match line {
        Err(fault) => Err(*fault),
        Ok(line) => match definition_of(labels, &line.label) {
            Some(definition) => Err(LineFault::LabelTwice(definition.line)),
            None => slot_after(slot, &line.statement),
        },
    }
}

/// The slot after a statement, which is the statement's own where there is no instruction.
fn slot_after(
    slot: usize,
    statement: &Result<Option<Statement<'_>>, LineFault>,
) -> Result<usize, LineFault>
    requires { slot ≤ most_slots }
    ensures value { result ≡ slot_after slot statement.now }
    ensures within { IfOk result (λ next. next ≤ most_slots) }
{
    match statement {
        Err(fault) => Err(*fault),
        Ok(None) => Ok(slot),
        Ok(Some(statement)) => slot_plus(slot, statement.insn.slots()),
    }
}

/// The slot that is so many slots on, which can't pass slot 65,535.
fn slot_plus(slot: usize, count: usize) -> Result<usize, LineFault>
    requires within { slot ≤ most_slots }
    requires few { count ≤ 2 }
    ensures within { IfOk result (λ next. next ≤ most_slots) }
    ensures value { result ≡ (if nat_le (slot + count) most_slots then Ok (slot + count)
        else Err LineFault.TooManySlots) }
{
    let next = slot + count;
    if next <= MOST_SLOTS {
        Ok(next)
    } else {
        Err(LineFault::TooManySlots)
    }
}
