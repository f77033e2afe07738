//! The numbers that atomic operations store (RFC 9669, section 5.3).
ghost use Rattle.std.specs.Prelude.{◌≡◌, ◌%◌, ◌^◌, ◌+◌};
ghost use Rattle.bpf_steps.specs.Atomics.{combined as combined_of, size_of as size_of_width};
ghost use Rattle.bpf_steps.specs.Numbers.{bits_of};

use super::low32;
use bpf_isa::{AtomicOp, Size, Width};

/// The number that an operation on the number in memory and the source stores.
pub fn combined(op: AtomicOp, width: Width, old: u64, source: u64) -> u64
    ensures { result ≡ combined_of op (bits_of width) old source }
{
    match op {
        AtomicOp::Add | AtomicOp::FetchAdd => sum(width, old, source),
        AtomicOp::Or | AtomicOp::FetchOr => old | source,
        AtomicOp::And | AtomicOp::FetchAnd => old & source,
        AtomicOp::Xor | AtomicOp::FetchXor => old ^ source,
        AtomicOp::Exchange | AtomicOp::CompareExchange => source,
    }
}

/// A sum mod 2^32 or 2^64.
fn sum(width: Width, old: u64, source: u64) -> u64
    ensures { result ≡ (old + source) % 2 ^ bits_of width }
{
    match width {
        Width::Bits32 => u64::from(low32(old.wrapping_add(source))),
        Width::Bits64 => old.wrapping_add(source),
    }
}

/// The low bits of a number that an operation of this width looks at.
pub fn low(width: Width, number: u64) -> u64
    ensures { result ≡ number % 2 ^ bits_of width }
{
    match width {
        Width::Bits32 => u64::from(low32(number)),
        Width::Bits64 => number,
    }
}

/// The size of the number in memory.
pub fn size_of(width: Width) -> Size
    ensures { result ≡ size_of_width width }
{
    match width {
        Width::Bits32 => Size::Word,
        Width::Bits64 => Size::Double,
    }
}
