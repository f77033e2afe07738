//! The frames of local calls: where they lie in memory, and the bytes of one.
ghost use Rattle.std.specs.Prelude.{◌≡◌, length};
ghost use Rattle.bpf_entries.specs.Frames.{frame_base as base_of, frame_len};

use std::marker::Model;

/// The address of frame 0's first byte.
pub const FRAME_BASE: u64 = 0x2_0000_0000;

/// How far the first bytes of two frames in a row are apart.
pub const FRAME_STRIDE: u64 = 1_024;

/// How many bytes a frame has.
pub const FRAME_LEN: usize = 512;

/// The address of the first byte of the frame of a depth.
#[inline(always)]
pub fn frame_base(depth: u32) -> u64
    ensures { result ≡ base_of depth }
{
    FRAME_BASE + FRAME_STRIDE * u64::from(depth)
}

/// The 512 bytes of a frame.
#[derive(Drop)]
pub struct FrameBytes {
    items: [u8; FRAME_LEN],
}

impl Model for FrameBytes {
    ghost use Rattle.std.specs.Prelude.{ℕ, List};

    ghost Value = { List ℕ };

    ghost view = { λ f. f.items };
}

impl FrameBytes {
    /// The frame with these bytes.
    pub fn of(bytes: &[u8]) -> FrameBytes
        requires { length bytes.now ≡ frame_len }
        ensures { result ≡ bytes.now }
    {
        let mut items = [0; FRAME_LEN];
        items.copy_from_slice(bytes);
        FrameBytes { items }
    }

    /// How many bytes it has: 512.
    pub fn len(&self) -> usize
        ensures value { result ≡ length self.now }
        ensures fits { result ≡ frame_len }
    {
        self.as_slice().len()
    }

    /// Its bytes.
    pub fn as_slice(&self) -> &[u8]
        ensures value { result.now ≡ self.now }
        ensures fits { length result.now ≡ frame_len }
    {
        &self.items
    }
}
