//! The table of a listing's lines: where each instruction and each label stands.
ghost use Rattle.std.specs.Prelude.{◌≡◌, ◌≤◌, [], IfOk, IfErr, IfSome, IfNone, OnOk, Some, None, map};
ghost use Rattle.counted_io.specs.Lines.{lines};
ghost use Rattle.counted_io.specs.Writing.{WritesAfter};
ghost use Rattle.bpf_text.specs.LineTable.{IsLineTable, labels_and, row};
ghost use Rattle.bpf_text.specs.Listing.{IsFaultOf};
ghost use Rattle.bpf_text.specs.declared.fault.AsmFault.TheVariants.{Memory};
ghost use Rattle.bpf_text.specs.Scaffolding.Lines.{read_line};
ghost use Rattle.bpf_text.specs.Scaffolding.Rounds.{label_of, statement_of};
ghost use Rattle.bpf_text.specs.Scaffolding.Rows.{rows, slots_said};

use crate::fault::{AsmFault, LineFault};
use crate::read::assembler::assemble;
use crate::read::line::{Line, read_line};
use counted_io::{Counted, Piece, WriteFault, put_all, sides};
use std::alloc::{AllocError, Global};
use std::io::Write;

/// The table of a listing's lines, or the listing's first fault, as `assemble` answers it: a row an
/// instruction, with its slot, its line, counted from 1, and the labels that stand at it, in the
/// order of their lines. Blanks part them.
pub fn line_table(alloc: Global, text: &[u8]) -> Result<Vec<u8>, AsmFault>
    ensures ok { IfOk result (λ table. IsLineTable text.now table.items) }
    ensures err { IfErr result (IsFaultOf text.now) }
{
    match assemble(alloc, text) {
        Ok(_) => match rows_of(alloc, text) {
            Ok(table) => Ok(table),
            Err(AllocError) => Err(AsmFault::Memory),
        },
        Err(fault) => Err(fault),
    }
}

/// The rows of a listing without a fault.
fn rows_of(alloc: Global, text: &[u8]) -> Result<Vec<u8>, AllocError>
    ensures { IfOk result (λ table. table.items ≡ rows 0 1 [] (map read_line (lines text.now))) }
{
    let mut writer = Counted::new(Vec::new(alloc));
    let mut so_far = Ok(());
    let mut labels = Vec::new(alloc);
    let mut slot = 0;
    let mut line_number = 1;
    let mut rest = text;
    while !rest.is_empty() {
        let (first, others) = sides(rest, b'\n');
        let line = read_line(first);
        push_label(&mut labels, &line)?;
        if let Some(count) = slots_of(&line) {
            so_far = put_row(&mut writer, so_far, slot, line_number, labels.as_slice());
            labels.clear();
            slot += count as u64;
        }
        rest = others;
        line_number += 1;
    }
    match so_far {
        Ok(()) => Ok(writer.into_inner()),
        Err(_) => Err(AllocError),
    }
}

/// Appends a line's label, if it has one, behind a blank.
fn push_label(labels: &mut Vec<u8>, line: &Result<Line<'_>, LineFault>) -> Result<(), AllocError>
    ensures { OnOk result (labels.new.items
        ≡ labels_and labels.old.items (label_of line.now)) }
{
    match line {
        Ok(
            Line {
                label: Some(name),
                ..
            },
        ) => {
            labels.push(b' ').map_err(|_| AllocError)?;
            labels.extend_from_slice(name.bytes).map_err(|_| AllocError)
        }
        _ => Ok(()),
    }
}

/// How many slots the instruction of a line takes; None where it has none.
fn slots_of(line: &Result<Line<'_>, LineFault>) -> Option<usize>
    ensures value { result ≡ slots_said (statement_of line.now) }
    ensures few { IfSome result (λ n. n ≤ 2) }
{
    match line {
        Ok(
            Line {
                statement: Ok(Some(statement)),
                ..
            },
        ) => Some(statement.insn.slots()),
        _ => None,
    }
}

/// Writes a row after what was written so far, unless that failed.
fn put_row<W: Write>(
    writer: &mut Counted<W>,
    so_far: Result<(), WriteFault>,
    slot: u64,
    line: u64,
    labels: &[u8],
) -> Result<(), WriteFault>
    ensures { WritesAfter W.contents writer.old so_far writer.new result
        (row slot line labels.now) }
{
    let row = [
        Piece::Decimal(slot),
        Piece::Text(b" "),
        Piece::Decimal(line),
        Piece::Text(labels),
        Piece::Text(b"\n"),
    ];
    put_all(writer, so_far, &row)
}
