//! The read of one byte.
ghost use Rattle.counted_io.specs.Reading.{ReadsByte};

use crate::counted::Counted;
use crate::fault::ReadFault;
use std::io::Read;

/// Reads the next byte, or none at the end.
pub fn read_byte<R: Read>(reader: &mut Counted<R>) -> Result<Option<u8>, ReadFault>
    ensures { ReadsByte R.remaining reader.old reader.new result }
{
    let mut byte = [0];
    match reader.read(&mut byte) {
        Ok(0) => Ok(None),
        Ok(_) => Ok(Some(byte[0])),
        Err(_) => Err(ReadFault),
    }
}
