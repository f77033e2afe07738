//! Results and conditions on 64 bits (RFC 9669, sections 4.1 and 4.3).
ghost use Rattle.std.specs.Prelude.{◌≡◌};
ghost use Rattle.bpf_steps.specs.Arithmetic.{result as result_of, negated as negated_of};
ghost use Rattle.bpf_steps.specs.Jumps.{holds as holds_of};

use bpf_isa::{BinaryOp, Condition};

/// The result of an operation of two operands.
pub fn binary(op: BinaryOp, a: u64, b: u64) -> u64
    ensures { result ≡ result_of op 64 a b }
{
    match op {
        BinaryOp::Add => a.wrapping_add(b),
        BinaryOp::Sub => a.wrapping_sub(b),
        BinaryOp::Mul => a.wrapping_mul(b),
        BinaryOp::Div if b == 0 => 0,
        BinaryOp::Div => a / b,
        BinaryOp::SignedDiv if b == 0 => 0,
        BinaryOp::SignedDiv => a
            .cast_signed()
            .wrapping_div(b.cast_signed())
            .cast_unsigned(),
        BinaryOp::Or => a | b,
        BinaryOp::And => a & b,
        BinaryOp::LeftShift => a << (b % 64),
        BinaryOp::RightShift => a >> (b % 64),
        BinaryOp::Mod if b == 0 => a,
        BinaryOp::Mod => a % b,
        BinaryOp::SignedMod if b == 0 => a,
        BinaryOp::SignedMod => a
            .cast_signed()
            .wrapping_rem(b.cast_signed())
            .cast_unsigned(),
        BinaryOp::Xor => a ^ b,
        BinaryOp::Mov => b,
        BinaryOp::SignedRightShift => (a.cast_signed() >> (b % 64)).cast_unsigned(),
    }
}

/// The result of a negation.
pub fn negated(a: u64) -> u64
    ensures { result ≡ negated_of 64 a }
{
    0u64.wrapping_sub(a)
}

/// Whether a condition holds of two numbers.
pub fn holds(condition: Condition, a: u64, b: u64) -> bool
    ensures { result ≡ holds_of condition 64 a b }
{
    match condition {
        Condition::Equal => a == b,
        Condition::Greater => a > b,
        Condition::GreaterOrEqual => a >= b,
        Condition::BitsSet => a & b != 0,
        Condition::NotEqual => a != b,
        Condition::SignedGreater => a.cast_signed() > b.cast_signed(),
        Condition::SignedGreaterOrEqual => a.cast_signed() >= b.cast_signed(),
        Condition::Less => a < b,
        Condition::LessOrEqual => a <= b,
        Condition::SignedLess => a.cast_signed() < b.cast_signed(),
        Condition::SignedLessOrEqual => a.cast_signed() <= b.cast_signed(),
    }
}
