//! The names of the mnemonics (RFC 9669, sections 4 and 5): a stem and a suffix, for writing and
//! for reading.
ghost use Rattle.std.specs.Prelude.{◌≡◌, option_map};
ghost use Rattle.bpf_text.specs.Mnemonics.{binary_name, width_suffix, extension_suffix, order_name, swap_suffix, condition_name, size_suffix, load_suffix, store_name, atomic_name, atomic_suffix, wide_name};
ghost use Rattle.bpf_text.specs.Scaffolding.Named.{stem_of, suffix_of, behind, width_named, extension_named, swap_width_named, size_named, load_size_named, atomic_width_named, whole, with_suffix, mnemonic_with, stem_named, named};

use bpf_isa::{
    AtomicOp, BinaryOp, ByteOrder, Condition, Extension, LoadSize, Mnemonic, SignedSize, Size,
    SourceKind, SwapWidth, WideKind, Width,
};

/// Each stem once, as a mnemonic that has it, in the order of RFC 9669's tables.
pub const STEMS: [Mnemonic; 51] = [
    Mnemonic::Binary(BinaryOp::Add, Width::Bits64),
    Mnemonic::Binary(BinaryOp::Sub, Width::Bits64),
    Mnemonic::Binary(BinaryOp::Mul, Width::Bits64),
    Mnemonic::Binary(BinaryOp::Div, Width::Bits64),
    Mnemonic::Binary(BinaryOp::SignedDiv, Width::Bits64),
    Mnemonic::Binary(BinaryOp::Or, Width::Bits64),
    Mnemonic::Binary(BinaryOp::And, Width::Bits64),
    Mnemonic::Binary(BinaryOp::LeftShift, Width::Bits64),
    Mnemonic::Binary(BinaryOp::RightShift, Width::Bits64),
    Mnemonic::Binary(BinaryOp::Mod, Width::Bits64),
    Mnemonic::Binary(BinaryOp::SignedMod, Width::Bits64),
    Mnemonic::Binary(BinaryOp::Xor, Width::Bits64),
    Mnemonic::Binary(BinaryOp::Mov, Width::Bits64),
    Mnemonic::Binary(BinaryOp::SignedRightShift, Width::Bits64),
    Mnemonic::Negate(Width::Bits64),
    Mnemonic::SignExtend(Extension::Byte64),
    Mnemonic::SwapBytes(ByteOrder::Little, SwapWidth::Bits16),
    Mnemonic::SwapBytes(ByteOrder::Big, SwapWidth::Bits16),
    Mnemonic::SwapBytes(ByteOrder::Swap, SwapWidth::Bits16),
    Mnemonic::JumpIf(Condition::Equal, Width::Bits64),
    Mnemonic::JumpIf(Condition::Greater, Width::Bits64),
    Mnemonic::JumpIf(Condition::GreaterOrEqual, Width::Bits64),
    Mnemonic::JumpIf(Condition::BitsSet, Width::Bits64),
    Mnemonic::JumpIf(Condition::NotEqual, Width::Bits64),
    Mnemonic::JumpIf(Condition::SignedGreater, Width::Bits64),
    Mnemonic::JumpIf(Condition::SignedGreaterOrEqual, Width::Bits64),
    Mnemonic::JumpIf(Condition::Less, Width::Bits64),
    Mnemonic::JumpIf(Condition::LessOrEqual, Width::Bits64),
    Mnemonic::JumpIf(Condition::SignedLess, Width::Bits64),
    Mnemonic::JumpIf(Condition::SignedLessOrEqual, Width::Bits64),
    Mnemonic::Jump,
    Mnemonic::JumpLong,
    Mnemonic::CallHelper,
    Mnemonic::CallLocal,
    Mnemonic::Exit,
    Mnemonic::Load(LoadSize::Plain(Size::Word)),
    Mnemonic::Store(Size::Word, SourceKind::Immediate),
    Mnemonic::Store(Size::Word, SourceKind::Register),
    Mnemonic::Atomic(AtomicOp::Add, Width::Bits64),
    Mnemonic::Atomic(AtomicOp::Or, Width::Bits64),
    Mnemonic::Atomic(AtomicOp::And, Width::Bits64),
    Mnemonic::Atomic(AtomicOp::Xor, Width::Bits64),
    Mnemonic::Atomic(AtomicOp::FetchAdd, Width::Bits64),
    Mnemonic::Atomic(AtomicOp::FetchOr, Width::Bits64),
    Mnemonic::Atomic(AtomicOp::FetchAnd, Width::Bits64),
    Mnemonic::Atomic(AtomicOp::FetchXor, Width::Bits64),
    Mnemonic::Atomic(AtomicOp::Exchange, Width::Bits64),
    Mnemonic::Atomic(AtomicOp::CompareExchange, Width::Bits64),
    Mnemonic::LoadWide(WideKind::Number),
    Mnemonic::LoadWide(WideKind::Map),
    Mnemonic::LoadWide(WideKind::MapValue),
];

/// The two widths.
pub const WIDTHS: [Width; 2] = [Width::Bits64, Width::Bits32];

/// The moves that extend the sign.
pub const EXTENSIONS: [Extension; 5] = [
    Extension::Byte64,
    Extension::Half64,
    Extension::Word64,
    Extension::Byte32,
    Extension::Half32,
];

/// How many bits a byte swap can keep.
pub const SWAP_WIDTHS: [SwapWidth; 3] = [SwapWidth::Bits16, SwapWidth::Bits32, SwapWidth::Bits64];

/// The sizes of stores.
pub const SIZES: [Size; 4] = [Size::Word, Size::Half, Size::Byte, Size::Double];

/// The sizes of loads.
pub const LOAD_SIZES: [LoadSize; 7] = [
    LoadSize::Plain(Size::Word),
    LoadSize::Plain(Size::Half),
    LoadSize::Plain(Size::Byte),
    LoadSize::Plain(Size::Double),
    LoadSize::Signed(SignedSize::Word),
    LoadSize::Signed(SignedSize::Half),
    LoadSize::Signed(SignedSize::Byte),
];

/// What a mnemonic's name begins with: its operation.
pub fn stem_of(mnemonic: &Mnemonic) -> &'static str
    ensures { result.now ≡ stem_of mnemonic.now }
{
    match *mnemonic {
        Mnemonic::Binary(op, _) => binary_name(op),
        Mnemonic::Negate(_) => "neg",
        Mnemonic::SignExtend(_) => "movsx",
        Mnemonic::SwapBytes(order, _) => order_name(order),
        Mnemonic::JumpIf(condition, _) => condition_name(condition),
        Mnemonic::Jump => "ja",
        Mnemonic::JumpLong => "ja32",
        Mnemonic::CallHelper => "call",
        Mnemonic::CallLocal => "callf",
        Mnemonic::Exit => "exit",
        Mnemonic::Load(_) => "ldx",
        Mnemonic::Store(_, kind) => store_name(kind),
        Mnemonic::Atomic(op, _) => atomic_name(op),
        Mnemonic::LoadWide(kind) => wide_name(kind),
    }
}

/// What a mnemonic's name ends with: its width or size, if it has one.
pub fn suffix_of(mnemonic: &Mnemonic) -> &'static str
    ensures { result.now ≡ suffix_of mnemonic.now }
{
    match *mnemonic {
        Mnemonic::Binary(_, width) => width_suffix(width),
        Mnemonic::Negate(width) => width_suffix(width),
        Mnemonic::SignExtend(extension) => extension_suffix(extension),
        Mnemonic::SwapBytes(_, width) => swap_suffix(width),
        Mnemonic::JumpIf(_, width) => width_suffix(width),
        Mnemonic::Load(size) => load_suffix(size),
        Mnemonic::Store(size, _) => size_suffix(size),
        Mnemonic::Atomic(_, width) => atomic_suffix(width),
        _ => "",
    }
}

/// Arithmetic of two operands (section 4.1).
fn binary_name(op: BinaryOp) -> &'static str
    ensures { result.now ≡ binary_name op }
{
    match op {
        BinaryOp::Add => "add",
        BinaryOp::Sub => "sub",
        BinaryOp::Mul => "mul",
        BinaryOp::Div => "div",
        BinaryOp::SignedDiv => "sdiv",
        BinaryOp::Or => "or",
        BinaryOp::And => "and",
        BinaryOp::LeftShift => "lsh",
        BinaryOp::RightShift => "rsh",
        BinaryOp::Mod => "mod",
        BinaryOp::SignedMod => "smod",
        BinaryOp::Xor => "xor",
        BinaryOp::Mov => "mov",
        BinaryOp::SignedRightShift => "arsh",
    }
}

/// Byte swaps (section 4.2).
fn order_name(order: ByteOrder) -> &'static str
    ensures { result.now ≡ order_name order }
{
    match order {
        ByteOrder::Little => "le",
        ByteOrder::Big => "be",
        ByteOrder::Swap => "swap",
    }
}

/// Conditional jumps (section 4.3).
fn condition_name(condition: Condition) -> &'static str
    ensures { result.now ≡ condition_name condition }
{
    match condition {
        Condition::Equal => "jeq",
        Condition::Greater => "jgt",
        Condition::GreaterOrEqual => "jge",
        Condition::BitsSet => "jset",
        Condition::NotEqual => "jne",
        Condition::SignedGreater => "jsgt",
        Condition::SignedGreaterOrEqual => "jsge",
        Condition::Less => "jlt",
        Condition::LessOrEqual => "jle",
        Condition::SignedLess => "jslt",
        Condition::SignedLessOrEqual => "jsle",
    }
}

/// Stores of a number and of a register (section 5.1).
fn store_name(kind: SourceKind) -> &'static str
    ensures { result.now ≡ store_name kind }
{
    match kind {
        SourceKind::Immediate => "st",
        SourceKind::Register => "stx",
    }
}

/// Wide loads (section 5.4).
fn wide_name(kind: WideKind) -> &'static str
    ensures { result.now ≡ wide_name kind }
{
    match kind {
        WideKind::Number => "lddw",
        WideKind::Map => "ldmap",
        WideKind::MapValue => "ldmapval",
    }
}

/// Atomic operations (section 5.3).
fn atomic_name(op: AtomicOp) -> &'static str
    ensures { result.now ≡ atomic_name op }
{
    match op {
        AtomicOp::Add => "atomic_add",
        AtomicOp::Or => "atomic_or",
        AtomicOp::And => "atomic_and",
        AtomicOp::Xor => "atomic_xor",
        AtomicOp::FetchAdd => "atomic_fetch_add",
        AtomicOp::FetchOr => "atomic_fetch_or",
        AtomicOp::FetchAnd => "atomic_fetch_and",
        AtomicOp::FetchXor => "atomic_fetch_xor",
        AtomicOp::Exchange => "atomic_xchg",
        AtomicOp::CompareExchange => "atomic_cmpxchg",
    }
}

/// Arithmetic and jumps on 32 bits.
fn width_suffix(width: Width) -> &'static str
    ensures { result.now ≡ width_suffix width }
{
    match width {
        Width::Bits64 => "",
        Width::Bits32 => "32",
    }
}

/// Moves that extend the sign (section 4.1).
fn extension_suffix(extension: Extension) -> &'static str
    ensures { result.now ≡ extension_suffix extension }
{
    match extension {
        Extension::Byte64 => "8",
        Extension::Half64 => "16",
        Extension::Word64 => "32",
        Extension::Byte32 => "8_32",
        Extension::Half32 => "16_32",
    }
}

/// How many bits a byte swap keeps (section 4.2).
fn swap_suffix(width: SwapWidth) -> &'static str
    ensures { result.now ≡ swap_suffix width }
{
    match width {
        SwapWidth::Bits16 => "16",
        SwapWidth::Bits32 => "32",
        SwapWidth::Bits64 => "64",
    }
}

/// The sizes of loads and stores (section 5.1).
fn size_suffix(size: Size) -> &'static str
    ensures { result.now ≡ size_suffix size }
{
    match size {
        Size::Word => "w",
        Size::Half => "h",
        Size::Byte => "b",
        Size::Double => "dw",
    }
}

/// The sizes of loads, which may extend the sign (section 5.2).
fn load_suffix(size: LoadSize) -> &'static str
    ensures { result.now ≡ load_suffix size }
{
    match size {
        LoadSize::Plain(size) => size_suffix(size),
        LoadSize::Signed(SignedSize::Word) => "sw",
        LoadSize::Signed(SignedSize::Half) => "sh",
        LoadSize::Signed(SignedSize::Byte) => "sb",
    }
}

/// The width of an atomic operation (section 5.3).
fn atomic_suffix(width: Width) -> &'static str
    ensures { result.now ≡ atomic_suffix width }
{
    match width {
        Width::Bits64 => "64",
        Width::Bits32 => "32",
    }
}

/// The mnemonic of this name, if there is one.
#[tactic(auto, unfolding(crate::specs::Scaffolding::Named::named))]
pub fn named(name: &[u8]) -> Option<Mnemonic>
    ensures { result ≡ named name.now }
{
    mnemonic_with(&stem_named(name)?, name)
}

/// A mnemonic with the stem of this name, if there is one.
#[tactic(auto, unfolding(crate::specs::Scaffolding::Named::stem_named))]
fn stem_named(name: &[u8]) -> Option<Mnemonic>
    ensures { result ≡ stem_named name.now }
{
    STEMS
        .iter()
        .copied()
        .find(|stem| mnemonic_with(stem, name).is_some())
}

/// The mnemonic that has this one's stem and this name, if there is one.
fn mnemonic_with(stem: &Mnemonic, name: &[u8]) -> Option<Mnemonic>
    ensures { result ≡ mnemonic_with stem.now name.now }
{
    with_suffix(stem, behind(stem_of(stem), name)?)
}

/// What stands behind a stem in a name, if the name begins with it.
fn behind<'a>(stem: &str, name: &'a [u8]) -> Option<&'a [u8]>
    ensures { option_map (λ rest. rest.now) result ≡ behind stem.now name.now }
{
    name.strip_prefix(stem.as_bytes())
}

/// The mnemonic that has this one's stem and this suffix, if there is one.
fn with_suffix(stem: &Mnemonic, suffix: &[u8]) -> Option<Mnemonic>
    ensures { result ≡ with_suffix stem.now suffix.now }
{
    match *stem {
        Mnemonic::Binary(op, _) => Some(Mnemonic::Binary(op, width_named(suffix)?)),
        Mnemonic::Negate(_) => Some(Mnemonic::Negate(width_named(suffix)?)),
        Mnemonic::SignExtend(_) => Some(Mnemonic::SignExtend(extension_named(suffix)?)),
        Mnemonic::SwapBytes(order, _) => {
            Some(Mnemonic::SwapBytes(order, swap_width_named(suffix)?))
        }
        Mnemonic::JumpIf(condition, _) => Some(Mnemonic::JumpIf(condition, width_named(suffix)?)),
        Mnemonic::Load(_) => Some(Mnemonic::Load(load_size_named(suffix)?)),
        Mnemonic::Store(_, kind) => Some(Mnemonic::Store(size_named(suffix)?, kind)),
        Mnemonic::Atomic(op, _) => Some(Mnemonic::Atomic(op, atomic_width_named(suffix)?)),
        mnemonic => whole(mnemonic, suffix),
    }
}

/// A mnemonic without a suffix.
fn whole(mnemonic: Mnemonic, suffix: &[u8]) -> Option<Mnemonic>
    ensures { result ≡ whole mnemonic suffix.now }
{
    if suffix.is_empty() {
        Some(mnemonic)
    } else {
        None
    }
}

fn width_named(suffix: &[u8]) -> Option<Width>
    ensures { result ≡ width_named suffix.now }
{
    WIDTHS
        .iter()
        .copied()
        .find(|width| width_suffix(*width).as_bytes() == suffix)
}

fn extension_named(suffix: &[u8]) -> Option<Extension>
    ensures { result ≡ extension_named suffix.now }
{
    EXTENSIONS.iter().copied().find(|extension| extension_suffix(*extension).as_bytes() == suffix)
}

fn swap_width_named(suffix: &[u8]) -> Option<SwapWidth>
    ensures { result ≡ swap_width_named suffix.now }
{
    SWAP_WIDTHS
        .iter()
        .copied()
        .find(|width| swap_suffix(*width).as_bytes() == suffix)
}

fn size_named(suffix: &[u8]) -> Option<Size>
    ensures { result ≡ size_named suffix.now }
{
    SIZES
        .iter()
        .copied()
        .find(|size| size_suffix(*size).as_bytes() == suffix)
}

fn load_size_named(suffix: &[u8]) -> Option<LoadSize>
    ensures { result ≡ load_size_named suffix.now }
{
    LOAD_SIZES
        .iter()
        .copied()
        .find(|size| load_suffix(*size).as_bytes() == suffix)
}

fn atomic_width_named(suffix: &[u8]) -> Option<Width>
    ensures { result ≡ atomic_width_named suffix.now }
{
    WIDTHS
        .iter()
        .copied()
        .find(|width| atomic_suffix(*width).as_bytes() == suffix)
}
