//! The sizes that a journal may have.
ghost use Rattle.std.specs.Prelude.{IsTrue, ◌↔◌};
ghost use Rattle.bpf_entries.specs.Keeping.{IsSize};

/// The smallest, in bytes.
const LEAST_SIZE: usize = 1_024;

/// The largest, in bytes.
const GREATEST_SIZE: usize = 16_777_216;

/// Whether a journal may have this size.
pub fn is_size(size: usize) -> bool
    ensures { IsTrue result ↔ IsSize size }
{
    size >= LEAST_SIZE && size <= GREATEST_SIZE
}
