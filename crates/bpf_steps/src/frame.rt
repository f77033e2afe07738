//! Frames of local calls.

/// What a local call keeps for its return.
#[derive(Clone, Copy, Default)]
pub struct Frame {
    /// The slot after the call.
    pub return_pc: u16,
    /// r6 to r9 at the call.
    pub saved: [u64; 4],
}
