//! Why the program of a test is refused.
ghost use Rattle.std.specs.Prelude.{◌≡◌};
ghost use Rattle.counted_io.specs.Writing.{WritesAfter};
ghost use Rattle.bpf_suite.specs.Outcomes.{is_memory};
ghost use Rattle.bpf_suite.specs.Refusals.{refusal_text, slot_of, text_of_refusal};
ghost use Rattle.bpf_suite.specs.declared.refusal.Refusal.TheVariants.{NoCell};

use bpf_isa::{LoadFault, MapFault};
use bpf_machine::OpenFault;
use bpf_text::AsmFault;
use counted_io::{Counted, Piece, WriteFault, put_all};
use std::io::Write;

/// Why a program isn't run, in the order in which it is looked at.
#[derive(Clone, Copy)]
pub enum Refusal {
    /// The map table's text.
    Maps(MapFault),
    /// The listing.
    Listing(AsmFault),
    /// The checker refused the words.
    Load(LoadFault),
    /// The machine can't be opened on the program and the context.
    Open(OpenFault),
    /// There is no such cell, by the number of its map and its index, or its values have another
    /// length.
    NoCell(u64, u64),
}

impl Refusal {
    /// Whether memory ran out.
    pub fn is_memory(&self) -> bool
        ensures { result ≡ is_memory self.now }
    {
        matches!(
            self,
            Refusal::Listing(AsmFault::Memory)
                | Refusal::Load(LoadFault::Memory)
                | Refusal::Open(OpenFault::OutOfMemory)
        )
    }
}

/// Writes a refusal.
pub fn put_refusal<W: Write>(
    writer: &mut Counted<W>,
    so_far: Result<(), WriteFault>,
    refusal: &Refusal,
) -> Result<(), WriteFault>
    ensures { WritesAfter W.contents writer.old so_far writer.new result
        (refusal_text refusal.now) }
{
    match refusal {
        Refusal::Maps(fault) => {
            let (number, text) = (fault.number(), fault.text());
            put_numbered(writer, so_far, b"refused M", number, b"", None, text)
        }
        Refusal::Listing(fault) => {
            let (number, text) = (fault.number(), fault.text());
            let line = fault.line();
            put_numbered(
                writer,
                so_far,
                b"refused A",
                number,
                b" at line ",
                line,
                text,
            )
        }
        Refusal::Load(fault) => {
            let (number, text) = (fault.number(), fault.text());
            let slot = slot_of(fault);
            put_numbered(
                writer,
                so_far,
                b"refused C",
                number,
                b" at slot ",
                slot,
                text,
            )
        }
        Refusal::Open(fault) => {
            let (number, text) = (fault.number(), fault.text());
            put_numbered(writer, so_far, b"refused O", number, b"", None, text)
        }
        Refusal::NoCell(map, index) => put_no_cell(writer, so_far, *map, *index),
    }
}

/// Writes that there is no such cell.
fn put_no_cell<W: Write>(
    writer: &mut Counted<W>,
    so_far: Result<(), WriteFault>,
    map: u64,
    index: u64,
) -> Result<(), WriteFault>
    ensures { WritesAfter W.contents writer.old so_far writer.new result
        (refusal_text (NoCell map index)) }
{
    let pieces = [
        Piece::Text(b"refused Q14 at cell "),
        Piece::Decimal(map),
        Piece::Text(b" "),
        Piece::Decimal(index),
        Piece::Text(b": no such cell or wrong length"),
    ];
    put_all(writer, so_far, &pieces)
}

/// The slot of a program's fault, where it has one.
pub fn slot_of(fault: &LoadFault) -> Option<usize>
    ensures { result ≡ slot_of fault.now }
{
    match fault {
        LoadFault::At { slot, .. } => Some(*slot),
        LoadFault::Empty => None,
        LoadFault::TooLong => None,
        LoadFault::Ragged => None,
        LoadFault::Memory => None,
    }
}

/// Writes a refusal: how it begins, its number, where it is in this unit if that is known, and its
/// text.
pub fn put_numbered<'a, W: Write>(
    writer: &mut Counted<W>,
    so_far: Result<(), WriteFault>,
    family: &'a [u8],
    number: u8,
    unit: &'a [u8],
    at: Option<usize>,
    text: &'a str,
) -> Result<(), WriteFault>
    ensures { WritesAfter W.contents writer.old so_far writer.new result
        (text_of_refusal family.now number unit.now at text.now) }
{
    let number = u64::from(number);
    let text = text.as_bytes();
    match at {
        Some(at) => {
            let pieces = [
                Piece::Text(family),
                Piece::Decimal(number),
                Piece::Text(unit),
                Piece::Decimal(at as u64),
                Piece::Text(b": "),
                Piece::Text(text),
            ];
            put_all(writer, so_far, &pieces)
        }
        None => {
            let pieces = [
                Piece::Text(family),
                Piece::Decimal(number),
                Piece::Text(b": "),
                Piece::Text(text),
            ];
            put_all(writer, so_far, &pieces)
        }
    }
}
