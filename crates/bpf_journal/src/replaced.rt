//! The bytes of memory that moves replaced, as their entries tell them.
ghost use Rattle.std.specs.Prelude.{◌≡◌};
ghost use Rattle.bpf_journal.specs.Replaced.{replaces_bytes as replaces_bytes_of};

use bpf_machine::Entry;

/// Whether a move with this entry replaced bytes.
pub fn replaces_bytes(entry: &Entry) -> bool
    ensures { result ≡ replaces_bytes_of entry.now }
{
    match entry.replaced(0) {
        Some(_) => true,
        None => false,
    }
}
