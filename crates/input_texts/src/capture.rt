//! Captures in pcap's own format, and their packets.
ghost use Rattle.std.specs.Prelude.{◌≡◌, ◌<◌, IfOk, drop, option_map, ℕ};
ghost use Rattle.input_texts.specs.Captures.{AreStarts, begun_at, first_packet, is_big, is_little, length_at, order_of, packet_in, rest, size_of};

use std::alloc::{AllocError, Global};

/// How many bytes stand before the packets, and before each of them.
const FILE_HEADER: usize = 24;

const PACKET_HEADER: usize = 16;

/// In which order numbers of a capture have their bytes.
#[derive(Clone, Copy)]
pub enum Order {
    Little,
    Big,
}

/// Whether a capture begins as one of a machine does whose numbers begin with the lowest byte.
fn is_little(file: &[u8]) -> bool
    ensures { result ≡ is_little file.now }
{
    file.starts_with(&[0xd4, 0xc3, 0xb2, 0xa1]) || file.starts_with(&[0x4d, 0x3c, 0xb2, 0xa1])
}

/// Whether it begins as one of a machine does whose numbers begin with the highest byte.
fn is_big(file: &[u8]) -> bool
    ensures { result ≡ is_big file.now }
{
    file.starts_with(&[0xa1, 0xb2, 0xc3, 0xd4]) || file.starts_with(&[0xa1, 0xb2, 0x3c, 0x4d])
}

/// The order of a capture's numbers, None where a file is no capture.
fn order_of(file: &[u8]) -> Option<Order>
    ensures { result ≡ order_of file.now }
{
    if is_little(file) {
        Some(Order::Little)
    } else if is_big(file) {
        Some(Order::Big)
    } else {
        None
    }
}

/// How many bytes of a packet were captured, by its header; 0 where there is none.
fn length_at(order: Order, text: &[u8]) -> usize
    ensures value { result ≡ length_at order text.now }
    ensures bound { result < 4294967296 }
{
    match text {
        [_, _, _, _, _, _, _, _, a, b, c, d, ..] => match order {
            Order::Little => u32::from_le_bytes([*a, *b, *c, *d]) as usize,
            Order::Big => u32::from_be_bytes([*a, *b, *c, *d]) as usize,
        },
        _ => 0,
    }
}

/// How many bytes a packet and its header have.
fn size_of(order: Order, text: &[u8]) -> usize
    ensures { result ≡ size_of order text.now }
{
    PACKET_HEADER + length_at(order, text)
}

/// Where the packets of a capture begin whose numbers have their bytes in this order.
fn starts_in(alloc: Global, order: Order, file: &[u8]) -> Result<Vec<usize>, AllocError>
    ensures { IfOk result (λ starts. (k : ℕ) →
        rest order (drop 24 file.now) k ≡ begun_at file.now starts.items k) }
{
    let mut starts = Vec::new(alloc);
    let mut at = FILE_HEADER;
    while at < file.len() {
        starts.push(at)?;
        at += size_of(order, &file[at..]);
    }
    Ok(starts)
}

/// Where the packets of a capture begin, each with its header of 16 bytes; nowhere where a file is no
/// capture in pcap's own format.
pub fn packet_starts(alloc: Global, file: &[u8]) -> Result<Vec<usize>, AllocError>
    ensures { IfOk result (λ starts. AreStarts file.now starts.items) }
{
    match order_of(file) {
        Some(order) => starts_in(alloc, order, file),
        None => Ok(Vec::new(alloc)),
    }
}

/// The first packet, if it is whole.
fn first_packet(order: Order, text: &[u8]) -> Option<&[u8]>
    ensures { option_map (λ bytes. bytes.now) result ≡ first_packet order text.now }
{
    let size = size_of(order, text);
    if text.len() < size {
        return None;
    }
    Some(&text[PACKET_HEADER..size])
}

/// What begins at the place of this number; nothing where there is none.
fn begun_at<'a>(file: &'a [u8], starts: &[usize], number: u64) -> &'a [u8]
    ensures { result.now ≡ begun_at file.now starts.now number }
{
    if number >= starts.len() as u64 {
        return &[];
    }
    let at = starts[number as usize];
    if at < file.len() { &file[at..] } else { &[] }
}

/// The packet of this number, counted from 1, of a capture in pcap's own format, whose packets begin
/// at these places (`packet_starts`). None where there is none, or the file is no such capture.
pub fn packet_at<'a>(file: &'a [u8], starts: &[usize], number: u64) -> Option<&'a [u8]>
    requires { AreStarts file.now starts.now }
    ensures { option_map (λ bytes. bytes.now) result ≡ packet_in file.now number }
{
    let order = order_of(file)?;
    if number == 0 || file.len() < FILE_HEADER {
        return None;
    }
    first_packet(order, begun_at(file, starts, number - 1))
}
