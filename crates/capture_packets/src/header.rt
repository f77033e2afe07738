//! What the first bytes of a file tell of a capture.
ghost use Rattle.std.specs.Prelude.{◌≡◌, ◌≤◌, length, true};
ghost use Rattle.capture_packets.specs.Headers.{is_capture, is_pcapng, link_type, sent_by};
ghost use Rattle.input_texts.specs.Captures.{is_big, is_little, order_of};

/// How many bytes stand before the packets.
pub(crate) const FILE_HEADER: usize = 24;

/// The link type of packets that begin with a header of Ethernet.
pub(crate) const ETHERNET: u16 = 1;

/// Whether a capture's numbers begin with the lowest byte.
fn is_little(file: &[u8]) -> bool
    ensures { result ≡ is_little file.now }
{
    file.starts_with(&[0xd4, 0xc3, 0xb2, 0xa1]) || file.starts_with(&[0x4d, 0x3c, 0xb2, 0xa1])
}

/// Whether they begin with the highest one.
fn is_big(file: &[u8]) -> bool
    ensures { result ≡ is_big file.now }
{
    file.starts_with(&[0xa1, 0xb2, 0xc3, 0xd4]) || file.starts_with(&[0xa1, 0xb2, 0x3c, 0x4d])
}

/// Whether a file is a capture in pcap's own format.
pub(crate) fn is_capture(file: &[u8]) -> bool
    ensures { result ≡ is_capture file.now }
{
    is_little(file) || is_big(file)
}

/// Whether it is one in pcapng.
pub(crate) fn is_pcapng(file: &[u8]) -> bool
    ensures { result ≡ is_pcapng file.now }
{
    file.starts_with(&[0x0a, 0x0d, 0x0d, 0x0a])
}

/// What its packets begin with.
pub(crate) fn link_type(file: &[u8]) -> u16
    requires capture { is_capture file.now ≡ true }
    requires header { 24 ≤ length file.now }
    ensures { result ≡ link_type file.now }
{
    if is_little(file) {
        u16::from_le_bytes([file[20], file[21]])
    } else {
        u16::from_be_bytes([file[22], file[23]])
    }
}

/// How many bytes a packet had, by its header; 0 where there is none.
pub(crate) fn sent_in(file: &[u8], text: &[u8]) -> u32
    requires capture { is_capture file.now ≡ true }
    ensures { result ≡ sent_by (order_of file.now) text.now }
{
    match text {
        [_, _, _, _, _, _, _, _, _, _, _, _, a, b, c, d, ..] => {
            if is_little(file) {
                u32::from_le_bytes([*a, *b, *c, *d])
            } else {
                u32::from_be_bytes([*a, *b, *c, *d])
            }
        }
        _ => 0,
    }
}
