//! What packets of a capture begin with.
ghost use Rattle.std.specs.Prelude.{◌≡◌};
ghost use Rattle.capture_packets.specs.Links.{link_name};

/// What packets of this link type begin with, in libpcap's words.
pub(crate) fn link_name(link: u16) -> &'static str
    ensures { result.now ≡ link_name link }
{
    match link {
        0 => "BSD loopback",
        9 => "PPP",
        101 => "Raw IP",
        105 => "802.11",
        108 => "OpenBSD loopback",
        113 => "Linux cooked v1",
        127 => "802.11 plus radiotap header",
        228 => "Raw IPv4",
        229 => "Raw IPv6",
        239 => "Linux netfilter log messages",
        253 => "Linux netlink",
        276 => "Linux cooked v2",
        _ => "something else",
    }
}
