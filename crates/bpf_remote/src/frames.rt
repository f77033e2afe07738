//! The frames of calls that have not returned, as gdb reads them: memory at an address of its own.
ghost use Rattle.std.specs.Prelude.{◌≡◌, ◌<◌, slice_get, slice_index};
ghost use Rattle.bpf_remote.specs.Frames.{frame_byte, numbers_of};

use crate::body::word_bytes;
use bpf_machine::{Cpu, Frame};

/// The address of the outermost one, which is in no region of the machine.
pub(crate) const FRAMES_BASE: u64 = 0x5_0000_0000;

/// How many bytes each takes.
const FRAME_BYTES: u64 = 40;

/// A byte of the frames.
pub(crate) fn frame_byte(cpu: &Cpu, at: u64) -> Option<u8>
    ensures { result ≡ frame_byte cpu.now at }
{
    match frame_at(cpu, at / FRAME_BYTES) {
        Some(frame) => {
            let number = number_of(&frame, (at % FRAME_BYTES / 8) as usize);
            Some(word_bytes(number)[(at % 8) as usize])
        }
        None => None,
    }
}

/// The frame of a call that has not returned, 0 the outermost.
fn frame_at(cpu: &Cpu, i: u64) -> Option<Frame>
    ensures { result ≡ slice_get cpu.now.frames i }
{
    let depth = cpu.depth() as u64;
    if i < depth {
        cpu.frame((depth - 1 - i) as usize)
    } else {
        None
    }
}

/// One of the numbers of a frame: the address that it returns to, and r6 to r9.
fn number_of(frame: &Frame, n: usize) -> u64
    requires { n < 5 }
    ensures { result ≡ slice_index (numbers_of frame.now) n }
{
    if n == 0 {
        8 * u64::from(frame.return_pc)
    } else {
        frame.saved[n - 1]
    }
}
