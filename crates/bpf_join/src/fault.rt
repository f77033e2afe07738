//! Faults: why two objects aren't joined.

use bpf_link::LinkFault;

/// Why two objects aren't joined, by the one whose fault it is. Want of memory counts as the first
/// one's.
#[derive(Clone, Copy)]
pub enum JoinFault {
    /// The object whose program is asked for.
    First(LinkFault),
    /// The object with the functions.
    Second(LinkFault),
}
