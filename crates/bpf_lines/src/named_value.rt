//! Values by their names: those of enumerators, and of verdicts.
ghost use Rattle.std.specs.Prelude.{◌≡◌, if◌then◌else◌};
ghost use Rattle.bpf_lines.specs.NamedValues as spec;
ghost use Rattle.bpf_lines.specs.declared.enumerators.Enumerator.TheVariants.{Value};

use crate::enumerators::{Enumerator, find_value};
use bpf_btf::Btf;
use bpf_packet::{Packet, verdict_name};

/// How many verdicts there are from 0 on.
const VERDICTS: u64 = 9;

/// Whether a value is the verdict of a name.
fn is_verdict_of(packet: Packet, value: u64, name: &[u8]) -> bool
    ensures { result ≡ spec.is_verdict_of packet value name.now }
{
    match verdict_name(packet, value) {
        Some(text) => text == name,
        None => false,
    }
}

/// The same, of XDP or of tc.
fn is_verdict(value: u64, name: &[u8]) -> bool
    ensures { result ≡ spec.is_verdict value name.now }
{
    is_verdict_of(Packet::Xdp, value, name) || is_verdict_of(Packet::Tc, value, name)
}

/// The verdict of a name, with one more value looked at.
fn with_verdict(found: Enumerator, value: u64, name: &[u8]) -> Enumerator
    ensures { result ≡ (if spec.is_verdict value name.now then Value value else found) }
{
    if is_verdict(value, name) {
        Enumerator::Value(value)
    } else {
        found
    }
}

/// The verdict of a name.
fn verdict(name: &[u8]) -> Enumerator
    ensures { result ≡ spec.verdict name.now }
{
    let mut found = Enumerator::Nothing;
    for value in 0..VERDICTS {
        found = with_verdict(found, value, name);
    }
    with_verdict(found, 0xffff_ffff, name)
}

/// The value of a name: of an enumerator, or of a verdict.
pub(crate) fn named_value(types: &Btf<'_>, name: &[u8]) -> Enumerator
    ensures { result ≡ spec.named_value types.now name.now }
{
    let found = find_value(types, name);
    match found {
        Enumerator::Nothing => verdict(name),
        _ => found,
    }
}
