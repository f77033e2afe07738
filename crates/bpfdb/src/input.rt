//! Standard input: whether there is one.
ghost use Rattle.std.specs.Io.KnownBytes.{Keeps};

use std::fs;
use std::io::Read;

/// The number of the system's error for a descriptor that is closed, or isn't open for reading.
const BAD_DESCRIPTOR: i32 = 9;

/// A file that is always there. Opened, it takes the lowest descriptor that is free.
const NULL_DEVICE: &str = "/dev/null";

/// Whether a reader's descriptor, the lowest of all, is closed, and not open for something else
/// than reading. Both fail alike at each read; but a file that is opened then takes the place of a
/// closed one, and can be read there. Its bytes stay.
pub fn is_closed<R: Read>(rt: &HostRuntime, input: &mut R) -> bool
    ensures { Keeps (R.remaining input.old) (R.remaining input.new) }
{
    if can_read(input) {
        return false;
    }
    match fs::open(rt, NULL_DEVICE) {
        Ok(held) => {
            let readable = can_read(input);
            drop(held);
            readable
        }
        Err(_) => false,
    }
}

/// Whether a reader's descriptor can be read: then a read that asks for no byte doesn't fail as one
/// of a bad descriptor does.
fn can_read<R: Read>(input: &mut R) -> bool
    ensures { Keeps (R.remaining input.old) (R.remaining input.new) }
{
    match input.read(&mut []) {
        Ok(_) => true,
        Err(error) => error.raw_os_error() != Some(BAD_DESCRIPTOR),
    }
}
