//! Results of arithmetic, byte swaps and conditions (RFC 9669, section 4), on numbers alone.
ghost use Rattle.std.specs.Prelude.{◌≡◌, ◌%◌, ◌^◌};
ghost use Rattle.bpf_steps.specs.Arithmetic.{sign_extended};
ghost use Rattle.bpf_steps.specs.Swaps.{swapped as swapped_of};

pub mod atomic;
pub mod bits32;
pub mod bits64;

use bpf_isa::{ByteOrder, Extension, SwapWidth};

/// The low 32 bits of a number.
pub fn low32(number: u64) -> u32
    ensures { result ≡ number % 2 ^ 32 }
{
    (number % 0x1_0000_0000) as u32
}

/// The low 16 bits of a number.
pub fn low16(number: u64) -> u16
    ensures { result ≡ number % 2 ^ 16 }
{
    (number % 0x1_0000) as u16
}

/// The low 8 bits of a number.
pub fn low8(number: u64) -> u8
    ensures { result ≡ number % 2 ^ 8 }
{
    (number % 0x100) as u8
}

/// A move that extends the sign of the source's low bits.
pub fn sign_extend(extension: Extension, source: u64) -> u64
    ensures { result ≡ sign_extended extension source }
{
    match extension {
        Extension::Byte64 => i64::from(low8(source).cast_signed()).cast_unsigned(),
        Extension::Half64 => i64::from(low16(source).cast_signed()).cast_unsigned(),
        Extension::Word64 => i64::from(low32(source).cast_signed()).cast_unsigned(),
        Extension::Byte32 => u64::from(i32::from(low8(source).cast_signed()).cast_unsigned()),
        Extension::Half32 => u64::from(i32::from(low16(source).cast_signed()).cast_unsigned()),
    }
}

/// The low bytes of a number in the given order.
pub fn swapped(order: ByteOrder, width: SwapWidth, number: u64) -> u64
    ensures { result ≡ swapped_of order width number }
{
    match order {
        ByteOrder::Little => kept(width, number),
        ByteOrder::Big | ByteOrder::Swap => reversed(width, number),
    }
}

fn kept(width: SwapWidth, number: u64) -> u64
    ensures { result ≡ swapped_of ByteOrder.Little width number }
{
    match width {
        SwapWidth::Bits16 => u64::from(low16(number)),
        SwapWidth::Bits32 => u64::from(low32(number)),
        SwapWidth::Bits64 => number,
    }
}

fn reversed(width: SwapWidth, number: u64) -> u64
    ensures { result ≡ swapped_of ByteOrder.Swap width number }
{
    match width {
        SwapWidth::Bits16 => u64::from(low16(number).swap_bytes()),
        SwapWidth::Bits32 => u64::from(low32(number).swap_bytes()),
        SwapWidth::Bits64 => number.swap_bytes(),
    }
}
