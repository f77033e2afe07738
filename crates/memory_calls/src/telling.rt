//! What is written of a call: what came of it, or why nothing did.
use crate::{NOT_REACHED, REFUSED};
use counted_io::{Counted, WriteFault, put, put_decimal, put_hexadecimal};
use std::io::Write;

/// Why nothing came of a call.
#[derive(Clone, Copy)]
pub enum Lack {
    /// It wasn't reached.
    NotReached,
    /// A read or a write failed.
    Failed,
    /// The script or the packets that come in can't be read, while a machine stands at this slot
    /// with this number in r0.
    Unread(u16, u64),
    /// The replies can't be written, while it stands so.
    Unwritten(u16, u64),
    /// Memory ran out, and the call has no number for that.
    Memory,
    /// It was refused: the letter, the number and the text.
    Refused(&'static str, u8, &'static str),
}

/// What came of a write.
pub fn said(told: Result<(), WriteFault>) -> Result<(), Lack> {
    match told {
        Ok(()) => Ok(()),
        Err(WriteFault) => Err(Lack::Failed),
    }
}

/// Writes the bytes that came of a call.
pub fn say<W: Write>(output: &mut Counted<W>, bytes: &[u8]) -> Result<(), Lack> {
    said(put(output, Ok(()), bytes))
}

/// Writes a number that came of a call.
pub fn say_number<W: Write>(output: &mut Counted<W>, number: usize) -> Result<(), Lack> {
    said(put_decimal(output, Ok(()), number as u64))
}

/// Tells a refusal, by its letter with its number and its text.
fn refuse<E: Write>(errors: &mut Counted<E>, letter: &str, number: u8, text: &str) {
    let told = put(errors, Ok(()), b"refused ");
    let told = put(errors, told, letter.as_bytes());
    let told = put_decimal(errors, told, u64::from(number));
    let told = put(errors, told, b": ");
    let told = put(errors, told, text.as_bytes());
    let _told = put(errors, told, b"\n");
}

/// Tells where a machine stands behind what failed.
fn stand<E: Write>(errors: &mut Counted<E>, what: &[u8], pc: u16, r0: u64) {
    let told = put(errors, Ok(()), what);
    let told = put(errors, told, b" at ");
    let told = put_decimal(errors, told, u64::from(pc));
    let told = put(errors, told, b": r0 ");
    let told = put_hexadecimal(errors, told, r0);
    let _told = put(errors, told, b"\n");
}

/// The status of a call. Where nothing came of it, it is told why.
pub fn status<E: Write>(errors: &mut Counted<E>, made: Result<(), Lack>) -> u8 {
    let text: &[u8] = match made {
        Ok(()) => return 0,
        Err(Lack::NotReached) => return NOT_REACHED,
        Err(Lack::Failed) => b"a read or a write failed\n",
        Err(Lack::Memory) => b"out of memory\n",
        Err(Lack::Unread(pc, r0)) => {
            stand(errors, b"cannot read input", pc, r0);
            return REFUSED;
        }
        Err(Lack::Unwritten(pc, r0)) => {
            stand(errors, b"cannot write output", pc, r0);
            return REFUSED;
        }
        Err(Lack::Refused(letter, number, text)) => {
            refuse(errors, letter, number, text);
            return REFUSED;
        }
    };
    let _told = put(errors, Ok(()), text);
    REFUSED
}
