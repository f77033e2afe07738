//! Instructions (RFC 9669, sections 3 to 5): a few shapes over small tables of operations.
ghost use Rattle.std.specs.Prelude.{◌≡◌, ◌≤◌};

use crate::register::Reg;

/// The width of an operation: the classes ALU and JMP32, and ALU64 and JMP.
#[derive(Clone, Copy)]
pub enum Width {
    Bits32,
    Bits64,
}

/// The size of an access to memory: W, H, B and DW (4, 2, 1 and 8 bytes).
#[derive(Clone, Copy)]
pub enum Size {
    Word,
    Half,
    Byte,
    Double,
}

/// The size of a load that extends the sign: W, H and B (4, 2 and 1 bytes).
#[derive(Clone, Copy)]
pub enum SignedSize {
    Word,
    Half,
    Byte,
}

impl Size {
    ghost use Rattle.bpf_isa.specs.Sizes.{size_len};

    /// How many bytes an access of this size has, 1 to 8.
    pub fn len(self) -> usize
        ensures value { result ≡ size_len self }
        ensures fits { (1 ≤ result) × (result ≤ 8) }
    {
        match self {
            Size::Word => 4,
            Size::Half => 2,
            Size::Byte => 1,
            Size::Double => 8,
        }
    }
}

impl SignedSize {
    ghost use Rattle.bpf_isa.specs.Sizes.{signed_len};

    /// How many bytes a load of this size has, 1 to 4.
    pub fn len(self) -> usize
        ensures value { result ≡ signed_len self }
        ensures fits { (1 ≤ result) × (result ≤ 4) }
    {
        match self {
            SignedSize::Word => 4,
            SignedSize::Half => 2,
            SignedSize::Byte => 1,
        }
    }
}

/// How many bytes a load reads, and what fills the rest: zeros (MEM, section 5.1) or the sign
/// (MEMSX, section 5.2).
#[derive(Clone, Copy)]
pub enum LoadSize {
    Plain(Size),
    Signed(SignedSize),
}

/// Where an access begins: `base + offset` (RFC 9669, section 5).
#[derive(Clone, Copy)]
pub struct Address {
    pub base: Reg,
    pub offset: i16,
}

/// Arithmetic of two operands, in the order of RFC 9669, section 4.1.
#[derive(Clone, Copy)]
pub enum BinaryOp {
    Add,
    Sub,
    Mul,
    Div,
    SignedDiv,
    Or,
    And,
    LeftShift,
    RightShift,
    Mod,
    SignedMod,
    Xor,
    Mov,
    SignedRightShift,
}

/// The second operand: the form K (imm, a signed number of 32 bits) or X (a register).
#[derive(Clone, Copy)]
pub enum Source {
    Immediate(i32),
    Register(Reg),
}

/// The kind of the second operand: K (imm) or X (a register).
#[derive(Clone, Copy)]
pub enum SourceKind {
    Immediate,
    Register,
}

/// A sign-extending move: how many low bits of the source count, and the width of the result.
#[derive(Clone, Copy)]
pub enum Extension {
    Byte64,
    Half64,
    Word64,
    Byte32,
    Half32,
}

/// Which bytes a byte swap puts first (RFC 9669, section 4.2).
#[derive(Clone, Copy)]
pub enum ByteOrder {
    Little,
    Big,
    Swap,
}

/// How many low bits a byte swap keeps.
#[derive(Clone, Copy)]
pub enum SwapWidth {
    Bits16,
    Bits32,
    Bits64,
}

/// The condition of a conditional jump, in the order of RFC 9669, section 4.3.
#[derive(Clone, Copy)]
pub enum Condition {
    Equal,
    Greater,
    GreaterOrEqual,
    BitsSet,
    NotEqual,
    SignedGreater,
    SignedGreaterOrEqual,
    Less,
    LessOrEqual,
    SignedLess,
    SignedLessOrEqual,
}

/// An atomic operation (RFC 9669, section 5.3).
#[derive(Clone, Copy)]
pub enum AtomicOp {
    Add,
    Or,
    And,
    Xor,
    FetchAdd,
    FetchOr,
    FetchAnd,
    FetchXor,
    Exchange,
    CompareExchange,
}

/// What a wide load leaves in dst (RFC 9669, section 5.4).
#[derive(Clone, Copy)]
pub enum WideValue {
    /// A number.
    Number(u64),
    /// The token of a map, by the map's index.
    Map(u32),
    /// The address of a byte of a map's values, `offset` from their first.
    MapValue { map: u32, offset: u32 },
}

/// An instruction. Offsets of jumps count slots from the next slot, those of accesses count bytes.
#[derive(Clone, Copy)]
pub enum Insn {
    /// `dst = dst op source`, or `dst = source` for a move.
    Binary {
        op: BinaryOp,
        width: Width,
        dst: Reg,
        source: Source,
    },
    /// `dst = -dst`.
    Negate {
        width: Width,
        dst: Reg,
    },
    /// A move that extends the sign of the source's low bits.
    SignExtend {
        extension: Extension,
        dst: Reg,
        src: Reg,
    },
    /// A byte swap of dst's low bits.
    SwapBytes {
        order: ByteOrder,
        width: SwapWidth,
        dst: Reg,
    },
    /// A jump by `offset` slots where dst meets the condition with the source.
    JumpIf {
        condition: Condition,
        width: Width,
        dst: Reg,
        source: Source,
        offset: i16,
    },
    /// A jump by `offset` slots.
    Jump {
        offset: i16,
    },
    /// A jump by `distance` slots.
    JumpLong {
        distance: i32,
    },
    /// A call of a helper function by its number.
    CallHelper {
        helper: u32,
    },
    /// A call of a function of the program, `distance` slots from the next slot.
    CallLocal {
        distance: i32,
    },
    /// The end of a function or of the program.
    Exit,
    /// `dst` = the number at `from`.
    Load {
        size: LoadSize,
        dst: Reg,
        from: Address,
    },
    /// Stores the low bytes of the source at `to`.
    Store {
        size: Size,
        to: Address,
        source: Source,
    },
    /// An atomic operation on the number at `to`.
    Atomic {
        op: AtomicOp,
        width: Width,
        to: Address,
        src: Reg,
    },
    /// A wide load, of two slots: `dst` = the value.
    LoadWide {
        dst: Reg,
        value: WideValue,
    },
}

impl Insn {
    ghost use Rattle.bpf_isa.specs.Insns.{slots_of};

    /// How many slots it takes: 2 for a wide instruction, else 1.
    pub fn slots(&self) -> usize
        ensures value { result ≡ slots_of self.now }
        ensures within { result ≤ 2 }
    {
        match *self {
            Insn::LoadWide { .. } => 2,
            _ => 1,
        }
    }
}
