//! Bytes that are put together of numbers and names.
ghost use Rattle.std.specs.Prelude.{◌≡◌, ◌≤◌, ◌+◌, ◌++◌, IfErr, IfOk, length};
ghost use Rattle.bpf_link.specs.declared.fault.LinkFault.TheVariants.{Memory};
ghost use Rattle.bpf_counts.specs.Btf.{narrow, with_name, with_words};

use bpf_link::{LinkFault, with, word_bytes};

/// Bytes with some numbers.
pub fn with_words(bytes: Vec<u8>, words: &[u32]) -> Result<Vec<u8>, LinkFault>
    ensures ok { IfOk result (λ new. new.items ≡ with_words bytes.items words.now) }
    ensures err { IfErr result (λ fault. fault ≡ Memory) }
{
    let mut all = bytes;
    for i in 0..words.len() {
        match with(all, &word_bytes(words[i])) {
            Ok(new) => all = new,
            Err(fault) => return Err(fault),
        }
    }
    Ok(all)
}

/// Strings with a name.
pub fn with_name(strings: Vec<u8>, name: &[u8]) -> Result<Vec<u8>, LinkFault>
    ensures ok { IfOk result (λ new. new.items ≡ with_name strings.items name.now) }
    ensures err { IfErr result (λ fault. fault ≡ Memory) }
{
    match with(strings, name) {
        Ok(named) => with(named, &[0]),
        Err(fault) => Err(fault),
    }
}

/// A sum as a number of 32 bits: the greatest one where it is greater.
pub fn narrow(n: usize, more: u32) -> u32
    ensures { result ≡ narrow (n + more) }
{
    let n = n.min(0xffff_ffff) as u32;
    n.saturating_add(more)
}
