//! An object of clang is linked, or is refused by name.
use bpf_link::{LinkFault, link};
use std::alloc::Global;

/// Why these bytes are no object.
pub fn fault_of_a_text(alloc: Global) -> Option<LinkFault> {
    link(alloc, b"no object", b"xdp").err()
}
