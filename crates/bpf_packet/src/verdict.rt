//! The names of verdicts: for what the kernel takes that which a packet's program answers.
ghost use Rattle.std.specs.Prelude.{◌≡◌};
ghost use Rattle.std.specs.Option.{option_map};
ghost use Rattle.bpf_packet.specs.Verdicts.{tc_verdict, verdict_name, verdict_of, xdp_verdict};

use crate::packet::Packet;

/// The name of a verdict of XDP.
fn xdp_verdict(verdict: u32) -> Option<&'static [u8]>
    ensures { option_map (λ name. name.now) result ≡ xdp_verdict verdict }
{
    match verdict {
        0 => Some(b"XDP_ABORTED"),
        1 => Some(b"XDP_DROP"),
        2 => Some(b"XDP_PASS"),
        3 => Some(b"XDP_TX"),
        4 => Some(b"XDP_REDIRECT"),
        _ => None,
    }
}

/// The name of a verdict of tc.
fn tc_verdict(verdict: u32) -> Option<&'static [u8]>
    ensures { option_map (λ name. name.now) result ≡ tc_verdict verdict }
{
    match verdict {
        0xffff_ffff => Some(b"TC_ACT_UNSPEC"),
        0 => Some(b"TC_ACT_OK"),
        1 => Some(b"TC_ACT_RECLASSIFY"),
        2 => Some(b"TC_ACT_SHOT"),
        3 => Some(b"TC_ACT_PIPE"),
        4 => Some(b"TC_ACT_STOLEN"),
        5 => Some(b"TC_ACT_QUEUED"),
        6 => Some(b"TC_ACT_REPEAT"),
        7 => Some(b"TC_ACT_REDIRECT"),
        8 => Some(b"TC_ACT_TRAP"),
        _ => None,
    }
}

/// The verdict in what a program answers: its low 32 bits.
fn verdict_of(value: u64) -> u32
    ensures { result ≡ verdict_of value }
{
    (value % 4_294_967_296) as u32
}

/// The name of the verdict that a program answers, if it has one.
pub fn verdict_name(packet: Packet, value: u64) -> Option<&'static [u8]>
    ensures { option_map (λ name. name.now) result ≡ verdict_name packet value }
{
    let verdict = verdict_of(value);
    match packet {
        Packet::Xdp => xdp_verdict(verdict),
        Packet::Tc => tc_verdict(verdict),
    }
}
