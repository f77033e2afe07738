//! A block whose bytes go around its end.
ghost use Rattle.std.specs.Prelude.{◌≡◌, ◌≤◌, ◌<◌, ◌+◌, ◌^◌, ◌++◌, length, take, true, false};
ghost use Rattle.bpf_ring.specs.Blocks.{around, behind};
ghost use Rattle.bpf_ring.specs.Recorded.{HasPlace, WritesIn};

use circular_buffer::HeapCircularBuffer;

/// How many bytes more a buffer gets than are asked for, so that it is filled seldom.
const AHEAD: usize = 4_096;

/// Fills a buffer with zeros so that it has so many bytes and some more, or until it is full: 1,024
/// at a time, which the C library writes by wide stores, and not by one instruction a byte.
/// Where it then goes around its end, it is filled on to twice that, since all of it will be moved.
pub(crate) fn fill(buffer: &mut HeapCircularBuffer<u8>, count: usize)
    ensures capacity { buffer.new.capacity ≡ buffer.old.capacity }
    ensures items { take (length buffer.old.items) buffer.new.items ≡ buffer.old.items }
    ensures fits { length buffer.new.items ≤ buffer.old.capacity }
    ensures filled { length buffer.new.items < buffer.old.capacity →
        count ≤ length buffer.new.items }
{
    if count > buffer.len() {
        fill_on(buffer, count.saturating_add(AHEAD));
        if !buffer.as_slices().1.is_empty() {
            fill_on(buffer, 2 * buffer.len());
        }
    }
}

/// Fills a buffer so that it has so many bytes, or until it is full.
fn fill_on(buffer: &mut HeapCircularBuffer<u8>, count: usize)
    ensures capacity { buffer.new.capacity ≡ buffer.old.capacity }
    ensures items { take (length buffer.old.items) buffer.new.items ≡ buffer.old.items }
    ensures fits { length buffer.new.items ≤ buffer.old.capacity }
    ensures filled { length buffer.new.items < buffer.old.capacity →
        count ≤ length buffer.new.items }
{
    let end = count.min(buffer.capacity());
    while buffer.len() < end {
        buffer.fill_from_slice(&[0u8; 1024]);
    }
}

/// The place n behind another, in a block of this size.
#[inline(always)]
pub(crate) fn place(size: usize, first: usize, n: usize) -> usize
    requires { (first < size) × (n ≤ size) × (size < 2 ^ 63) }
    ensures value { result ≡ behind size first n }
    ensures within { result < size }
{
    let at = first + n;
    if at < size { at } else { at - size }
}

/// Writes bytes behind the `len` ones from `first` on, in one piece or in two.
#[inline(always)]
pub(crate) fn write_around(block: &mut [u8], first: usize, len: usize, bytes: &[u8])
    requires { HasPlace block.old first (len + length bytes.now) }
    ensures len { length block.new ≡ length block.old }
    ensures text { around block.new first (len + length bytes.now)
        ≡ around block.old first len ++ bytes.now }
{
    let size = block.len();
    let end = place(size, first, len);
    if end + bytes.len() <= size {
        copy(&mut block[end..end + bytes.len()], bytes);
    } else {
        let here = size - end;
        block[end..size].copy_from_slice(&bytes[..here]);
        block[..bytes.len() - here].copy_from_slice(&bytes[here..]);
    }
}

/// Writes bytes behind the `len` ones from `first` on: in one piece, in front of the block's last
/// byte. Where that is no room for them, all stays.
#[inline(always)]
pub(crate) fn write_in_place(block: &mut [u8], first: usize, len: usize, bytes: &[u8]) -> bool
    requires place { HasPlace block.old first len }
    requires fits { len + length bytes.now < 2 ^ 63 }
    ensures { WritesIn block.old block.new first len bytes.now result }
{
    let size = block.len();
    let end = place(size, first, len);
    if end + bytes.len() < size {
        copy(&mut block[end..end + bytes.len()], bytes);
        true
    } else {
        false
    }
}

/// Copies bytes. The arms are alike: those of a jump's entry and of a register's, which are the
/// common ones, are each copied at once.
#[inline(always)]
pub(crate) fn copy(into: &mut [u8], bytes: &[u8])
    requires { length into.old ≡ length bytes.now }
    ensures { into.new ≡ bytes.now }
{
    match bytes.len() {
        7 => into[..7].copy_from_slice(&bytes[..7]),
        16 => into[..16].copy_from_slice(&bytes[..16]),
        24 => into[..24].copy_from_slice(&bytes[..24]),
        _ => into.copy_from_slice(bytes),
    }
}
