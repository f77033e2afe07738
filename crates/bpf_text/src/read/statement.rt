//! The statement of a line: a mnemonic and its operands.
ghost use Rattle.std.specs.Prelude.{◌≡◌};
ghost use Rattle.bpf_text.specs.Scaffolding.Cuts.{mnemonic_part, operands_part};
ghost use Rattle.bpf_text.specs.Scaffolding.Instructions.{forms_of, insn_with};
ghost use Rattle.bpf_text.specs.Scaffolding.Lines.{read_statement, of_mnemonic};

use crate::fault::LineFault;
use crate::names::named;
use crate::read::term::{Name, OperandForm, OperandForms, Terms, read_terms};
use bpf_isa::{
    BinaryOp, Condition, Extension, Insn, Mnemonic, Size, Source, SourceKind, WideKind, WideValue,
    Width,
};
use counted_io::{find_blank, trim};

/// An instruction of a listing, and the name of its target, if it has one.
#[derive(Drop)]
pub struct Statement<'a> {
    /// The instruction. The distance of its target is 0: it comes from the label.
    pub insn: Insn,
    /// The label that is its target.
    pub target: Option<Name<'a>>,
}

/// What a line says behind its label: nothing, or an instruction.
pub fn read_statement(text: &[u8]) -> Result<Option<Statement<'_>>, LineFault>
    ensures { result ≡ read_statement text.now }
{
    if text.is_empty() {
        return Ok(None);
    }
    let (name, operands) = parts_of(text);
    match named(name) {
        None => Err(LineFault::UnknownMnemonic),
        Some(mnemonic) => statement_of(mnemonic, operands),
    }
}

/// The mnemonic of an instruction, and its operands.
fn parts_of(text: &[u8]) -> (&[u8], &[u8])
    ensures mnemonic { result.0.now ≡ mnemonic_part text.now }
    ensures operands { result.1.now ≡ operands_part text.now }
{
    let end = find_blank(text);
    if end < text.len() {
        (&text[..end], trim(&text[end + 1..]))
    } else {
        (text, trim(&[]))
    }
}

/// The operands are looked at for their forms first, and then for their ranges.
fn statement_of(mnemonic: Mnemonic, operands: &[u8]) -> Result<Option<Statement<'_>>, LineFault>
    ensures { result ≡ of_mnemonic (Some mnemonic) operands.now }
{
    match read_terms(forms_of(mnemonic), operands) {
        None => Err(LineFault::WrongOperands),
        Some(terms) => match insn_with(mnemonic, &terms) {
            None => Err(LineFault::OutOfRange),
            Some(insn) => Ok(Some(Statement {
                insn,
                target: terms.target(),
            })),
        },
    }
}

/// How the operands of a mnemonic are written.
fn forms_of(mnemonic: Mnemonic) -> OperandForms
    ensures { result ≡ forms_of mnemonic }
{
    match mnemonic {
        Mnemonic::Binary(_, _) => OperandForms::Two(OperandForm::Register, OperandForm::Source),
        Mnemonic::Negate(_) | Mnemonic::SwapBytes(_, _) => OperandForms::One(OperandForm::Register),
        Mnemonic::SignExtend(_) => OperandForms::Two(OperandForm::Register, OperandForm::Register),
        Mnemonic::JumpIf(_, _) => {
            OperandForms::Three(
                OperandForm::Register,
                OperandForm::Source,
                OperandForm::Name,
            )
        }
        Mnemonic::Jump | Mnemonic::JumpLong | Mnemonic::CallLocal => {
            OperandForms::One(OperandForm::Name)
        }
        Mnemonic::CallHelper => OperandForms::One(OperandForm::Unsigned),
        Mnemonic::Exit => OperandForms::Nothing,
        Mnemonic::Load(_) => OperandForms::Two(OperandForm::Register, OperandForm::Memory),
        Mnemonic::Store(_, SourceKind::Immediate) => {
            OperandForms::Two(OperandForm::Memory, OperandForm::Signed)
        }
        Mnemonic::Store(_, SourceKind::Register) | Mnemonic::Atomic(_, _) => {
            OperandForms::Two(OperandForm::Memory, OperandForm::Register)
        }
        Mnemonic::LoadWide(kind) => wide_forms(kind),
    }
}

/// How the operands of a wide load are written.
fn wide_forms(kind: WideKind) -> OperandForms
    ensures { result ≡ forms_of (Mnemonic.LoadWide kind) }
{
    match kind {
        WideKind::Number => OperandForms::Two(OperandForm::Register, OperandForm::Signed),
        WideKind::Map => OperandForms::Two(OperandForm::Register, OperandForm::Unsigned),
        WideKind::MapValue => {
            OperandForms::Three(
                OperandForm::Register,
                OperandForm::Unsigned,
                OperandForm::Unsigned,
            )
        }
    }
}

/// The instruction of a mnemonic and operands of its forms, if their numbers are in their ranges.
fn insn_with(mnemonic: Mnemonic, terms: &Terms<'_>) -> Option<Insn>
    ensures { result ≡ insn_with mnemonic terms.now }
{
    match mnemonic {
        Mnemonic::Binary(op, width) => binary_with(op, width, terms),
        Mnemonic::Negate(width) => {
            let dst = terms.first.register()?;
            Some(Insn::Negate { width, dst })
        }
        Mnemonic::SignExtend(extension) => extend_with(extension, terms),
        Mnemonic::SwapBytes(order, width) => {
            let dst = terms.first.register()?;
            Some(Insn::SwapBytes { order, width, dst })
        }
        Mnemonic::JumpIf(condition, width) => jump_with(condition, width, terms),
        Mnemonic::Jump => Some(Insn::Jump { offset: 0 }),
        Mnemonic::JumpLong => Some(Insn::JumpLong { distance: 0 }),
        Mnemonic::CallHelper => {
            let helper = terms.first.unsigned()?;
            Some(Insn::CallHelper { helper })
        }
        Mnemonic::CallLocal => Some(Insn::CallLocal { distance: 0 }),
        Mnemonic::Exit => Some(Insn::Exit),
        Mnemonic::Load(size) => {
            let dst = terms.first.register()?;
            let from = terms.second.memory()?;
            Some(Insn::Load { size, dst, from })
        }
        Mnemonic::Store(size, kind) => store_with(size, kind, terms),
        Mnemonic::Atomic(op, width) => {
            let to = terms.first.memory()?;
            let src = terms.second.register()?;
            Some(Insn::Atomic { op, width, to, src })
        }
        Mnemonic::LoadWide(kind) => wide_with(kind, terms),
    }
}

/// Arithmetic of two operands.
fn binary_with(op: BinaryOp, width: Width, terms: &Terms<'_>) -> Option<Insn>
    ensures { result ≡ insn_with (Mnemonic.Binary op width) terms.now }
{
    let dst = terms.first.register()?;
    let source = terms.second.source()?;
    Some(Insn::Binary {
        op,
        width,
        dst,
        source,
    })
}

/// A move that extends the sign.
fn extend_with(extension: Extension, terms: &Terms<'_>) -> Option<Insn>
    ensures { result ≡ insn_with (Mnemonic.SignExtend extension) terms.now }
{
    let dst = terms.first.register()?;
    let src = terms.second.register()?;
    Some(Insn::SignExtend {
        extension,
        dst,
        src,
    })
}

/// A conditional jump, whose distance is 0 here.
fn jump_with(condition: Condition, width: Width, terms: &Terms<'_>) -> Option<Insn>
    ensures { result ≡ insn_with (Mnemonic.JumpIf condition width) terms.now }
{
    let dst = terms.first.register()?;
    let source = terms.second.source()?;
    Some(Insn::JumpIf {
        condition,
        width,
        dst,
        source,
        offset: 0,
    })
}

/// A store of a number or of a register.
fn store_with(size: Size, kind: SourceKind, terms: &Terms<'_>) -> Option<Insn>
    ensures { result ≡ insn_with (Mnemonic.Store size kind) terms.now }
{
    let to = terms.first.memory()?;
    match kind {
        SourceKind::Immediate => {
            let source = Source::Immediate(terms.second.immediate()?);
            Some(Insn::Store { size, to, source })
        }
        SourceKind::Register => {
            let source = Source::Register(terms.second.register()?);
            Some(Insn::Store { size, to, source })
        }
    }
}

/// A wide load.
fn wide_with(kind: WideKind, terms: &Terms<'_>) -> Option<Insn>
    ensures { result ≡ insn_with (Mnemonic.LoadWide kind) terms.now }
{
    let dst = terms.first.register()?;
    match kind {
        WideKind::Number => {
            let value = WideValue::Number(terms.second.wide()?);
            Some(Insn::LoadWide { dst, value })
        }
        WideKind::Map => {
            let value = WideValue::Map(terms.second.unsigned()?);
            Some(Insn::LoadWide { dst, value })
        }
        WideKind::MapValue => {
            let map = terms.second.unsigned()?;
            let offset = terms.third.unsigned()?;
            let value = WideValue::MapValue { map, offset };
            Some(Insn::LoadWide { dst, value })
        }
    }
}
