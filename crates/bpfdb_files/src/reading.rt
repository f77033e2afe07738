//! The first bytes of what a reader gives.
ghost use Rattle.std.specs.Prelude.{◌≡◌, IfOk, IfErr, OnOk};
ghost use Rattle.bpfdb_files.specs.Reading.{Counts, TakesFirst};

use counted_io::Counted;
use std::alloc::Global;
use std::io::Read;

/// How many bytes are asked for at once.
const CHUNK_BYTES: usize = 16_384;

/// Why the first bytes of a reader aren't read.
#[derive(Clone, Copy)]
pub enum FirstFault {
    /// A read failed, and the counted reader counted it.
    Unread,
    /// Memory ran out.
    Memory,
}

/// Reads the first `most` bytes of what a reader gives, or all of them where they are fewer.
pub fn read_first<R: Read>(
    alloc: Global,
    reader: &mut Counted<R>,
    most: usize,
) -> Result<Vec<u8>, FirstFault>
    ensures bytes { IfOk result (λ b. TakesFirst most (R.remaining reader.old.inner)
        (R.remaining reader.new.inner) b.items) }
    ensures same { OnOk result (reader.new.failures ≡ reader.old.failures) }
    ensures fault { IfErr result (λ why. Counts why reader.old.failures reader.new.failures) }
{
    let mut bytes = Vec::new(alloc);
    while bytes.len() < most {
        let mut chunk = [0u8; CHUNK_BYTES];
        let room = CHUNK_BYTES.min(most - bytes.len());
        match reader.read(&mut chunk[..room]) {
            Ok(0) => return Ok(bytes),
            Ok(count) => match bytes.extend_from_slice(&chunk[..count]) {
                Ok(()) => {}
                Err(_) => return Err(FirstFault::Memory),
            },
            Err(_) => return Err(FirstFault::Unread),
        }
    }
    Ok(bytes)
}
