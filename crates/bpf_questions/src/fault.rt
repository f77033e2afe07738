//! Why a conversation breaks off.

/// Why a script wasn't answered to its end.
#[derive(Clone, Copy)]
pub enum ConversationFault {
    /// The script could not be read.
    Read,
    /// A write or a flush of the output failed.
    Write,
    /// Memory ran out for a reply.
    Memory,
}
