//! Instructions that make a constant.
ghost use Rattle.std.specs.Prelude.{◌≡◌};
ghost use Rattle.bpf_steps.specs.Numbers.{wrap};
ghost use Rattle.bpf_whynot.specs.Constants as spec;

use bpf_isa::{BinaryOp, Insn, Program, Size, Source, WideValue, Width};

/// A value, and where instructions that make it are looked for.
#[derive(Clone, Copy)]
pub struct Maker {
    pub value: u64,
    /// The first slot that counts.
    pub first: u64,
    /// How many slots count from that on.
    pub count: u64,
}

/// An immediate, as a number of 64 bits.
fn extended(imm: i32) -> u64
    ensures { result ≡ wrap 64 imm }
{
    i64::from(imm).cast_unsigned()
}

/// The number that a register of this width holds.
fn cut_by(width: Width, number: u64) -> u64
    ensures { result ≡ spec.cut_by width number }
{
    match width {
        Width::Bits32 => number % 4_294_967_296,
        Width::Bits64 => number,
    }
}

/// The number that so many bytes hold.
fn cut_to(size: Size, number: u64) -> u64
    ensures { result ≡ spec.cut_to size number }
{
    match size {
        Size::Byte => number % 256,
        Size::Half => number % 65_536,
        Size::Word => number % 4_294_967_296,
        Size::Double => number,
    }
}

/// What an operation makes of an immediate alone.
fn moved(op: BinaryOp, width: Width, source: Source) -> Option<u64>
    ensures { result ≡ spec.moved op width source }
{
    match (op, source) {
        (BinaryOp::Mov, Source::Immediate(imm)) => Some(cut_by(width, extended(imm))),
        _ => None,
    }
}

/// What a store by a register puts into the frame.
fn stored(size: Size, base: u8, source: Source) -> Option<u64>
    ensures { result ≡ spec.stored size base source }
{
    match source {
        Source::Immediate(imm) => {
            if base == 10 {
                Some(cut_to(size, extended(imm)))
            } else {
                None
            }
        }
        Source::Register(_) => None,
    }
}

/// The number of a wide load.
fn wide(value: WideValue) -> Option<u64>
    ensures { result ≡ spec.wide value }
{
    match value {
        WideValue::Number(number) => Some(number),
        _ => None,
    }
}

/// The constant that an instruction makes.
pub(crate) fn made_by(insn: &Insn) -> Option<u64>
    ensures { result ≡ spec.made_by insn.now }
{
    match *insn {
        Insn::Binary {
            op,
            width,
            source,
            ..
        } => moved(op, width, source),
        Insn::Store { size, to, source } => stored(size, to.base.number(), source),
        Insn::LoadWide { value, .. } => wide(value),
        _ => None,
    }
}

/// Whether a number is a value.
fn is_value(value: u64, made: u64) -> bool
    ensures { result ≡ spec.is_value value made }
{
    if value < 4_294_967_296 {
        made % 4_294_967_296 == value
    } else {
        made == value
    }
}

/// Whether an instruction makes a value.
fn makes(value: u64, insn: &Insn) -> bool
    ensures { result ≡ spec.makes value insn.now }
{
    match made_by(insn) {
        Some(made) => is_value(value, made),
        None => false,
    }
}

/// Whether the instruction of a slot makes the value, where it counts.
pub(crate) fn is_maker(program: &Program, maker: Maker, slot: usize) -> bool
    ensures { result ≡ spec.is_maker program.now maker slot }
{
    let at = slot as u64;
    if at < maker.first {
        return false;
    }
    if at - maker.first >= maker.count {
        return false;
    }
    match program.insn_at(slot) {
        Some(insn) => makes(maker.value, &insn),
        None => false,
    }
}
