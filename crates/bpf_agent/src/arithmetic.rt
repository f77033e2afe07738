//! The instructions of expressions that work on numbers.
ghost use Rattle.std.specs.Prelude.{◌≡◌, ◌<◌};
ghost use Rattle.bpf_agent.specs.Arithmetic.{binary, combined, compared, extended, quotient, shifted, truth, unary};

/// The result of an instruction on two numbers, None where it has none.
pub(crate) fn binary(op: u8, a: u64, b: u64) -> Option<u64>
    ensures { result ≡ binary op a b }
{
    match op {
        0x02 => Some(a.wrapping_add(b)),
        0x03 => Some(a.wrapping_sub(b)),
        0x04 => Some(a.wrapping_mul(b)),
        0x05..=0x08 => quotient(op, a, b),
        0x09..=0x0b => shifted(op, a, b),
        _ => combined(op, a, b),
    }
}

/// `div_signed`, `div_unsigned`, `rem_signed`, `rem_unsigned`: None where the divisor is 0.
fn quotient(op: u8, a: u64, b: u64) -> Option<u64>
    ensures { result ≡ quotient op a b }
{
    if b == 0 {
        return None;
    }
    let (x, y) = (a.cast_signed(), b.cast_signed());
    match op {
        0x05 => Some(x.wrapping_div(y).cast_unsigned()),
        0x06 => Some(a / b),
        0x07 => Some(x.wrapping_rem(y).cast_unsigned()),
        _ => Some(a % b),
    }
}

/// `lsh`, `rsh_signed`, `rsh_unsigned`: None by 64 bits and more.
fn shifted(op: u8, a: u64, b: u64) -> Option<u64>
    ensures { result ≡ shifted op a b }
{
    if b >= 64 {
        return None;
    }
    match op {
        0x09 => Some(a << b),
        0x0a => Some((a.cast_signed() >> b).cast_unsigned()),
        _ => Some(a >> b),
    }
}

/// `bit_and`, `bit_or`, `bit_xor`, and what compares.
fn combined(op: u8, a: u64, b: u64) -> Option<u64>
    ensures { result ≡ combined op a b }
{
    match op {
        0x0f => Some(a & b),
        0x10 => Some(a | b),
        0x11 => Some(a ^ b),
        _ => compared(op, a, b),
    }
}

/// `equal`, `less_signed`, `less_unsigned`: 1 or 0.
fn compared(op: u8, a: u64, b: u64) -> Option<u64>
    ensures { result ≡ compared op a b }
{
    match op {
        0x13 => Some(truth(a == b)),
        0x14 => Some(truth(a.cast_signed() < b.cast_signed())),
        0x15 => Some(truth(a < b)),
        _ => None,
    }
}

fn truth(is_true: bool) -> u64
    ensures { result ≡ truth is_true }
{
    if is_true { 1 } else { 0 }
}

/// The result of an instruction on one number.
pub(crate) fn unary(op: u8, n: u64, v: u64) -> Option<u64>
    ensures { result ≡ unary op n v }
{
    match op {
        0x0e => Some(truth(v == 0)),
        0x12 => Some(!v),
        _ if n == 0 => None,
        _ if n >= 64 => Some(v),
        0x16 => Some(extended(n, v)),
        _ => Some(v % (1 << n)),
    }
}

fn extended(n: u64, v: u64) -> u64
    requires above { 0 < n }
    requires below { n < 64 }
    ensures { result ≡ extended n v }
{
    let low = v % (1 << n);
    if low < 1 << (n - 1) {
        low
    } else {
        low + (u64::MAX - ((1 << n) - 1))
    }
}
