//! What is so of all numbers of 64 bits.
ghost use Rattle.std.specs.Prelude.{◌≡◌, ◌<◌, ◌^◌, All, length};

/// Brings the number and the range of the registers into a proof.
pub fn are_registers(registers: &[u64; 11])
    ensures count { length registers.now ≡ 11 }
    ensures range { All (λ number. number < 2 ^ 64) registers.now }
{
    let registers: &[u64] = registers;
    are_words(registers);
}

/// Brings the range of numbers into a proof.
pub fn are_words(words: &[u64])
    ensures { All (λ word. word < 2 ^ 64) words.now }
{}
