//! The examples of the page on how the libraries are called from a program of one's own
//! (docs/CALLING.md): a file each, and here what comes of them.
mod connection;
mod faults;
mod history;
mod listing;
mod machine;
mod object;
mod session;

use crate::telling::{Lack, said, say};
use counted_io::{Counted, put, put_decimal};
use std::alloc::Global;
use std::io::Write;

/// Listings without a machine, each with the length of its context.
const REFUSED: [(&[u8], usize); 3] = [
    (b"exit\nmov r0\n", 0),
    (b"call 3\nexit\n", 0),
    (b"exit\n", 65_537),
];

/// The examples: what comes of each.
pub fn tell<W: Write>(alloc: Global, output: &mut Counted<W>) -> Result<(), Lack> {
    tell_bytes(output, listing::canonical(alloc))?;
    tell_refusals(alloc, output)?;
    tell_faults(alloc, output)?;
    tell_numbers(output, of_machine(alloc))?;
    tell_numbers(output, of_history(alloc))?;
    tell_bytes(output, of_session(alloc))?;
    tell_bytes(output, of_connection(alloc))
}

/// Writes bytes, if there are some.
fn tell_bytes<W: Write>(output: &mut Counted<W>, bytes: Option<Vec<u8>>) -> Result<(), Lack> {
    match bytes {
        Some(bytes) => say(output, &bytes),
        None => Err(Lack::NotReached),
    }
}

/// Writes two numbers in a line, if there are some.
fn tell_numbers<W: Write>(
    output: &mut Counted<W>,
    numbers: Option<(u64, u64)>,
) -> Result<(), Lack> {
    let Some((first, second)) = numbers else {
        return Err(Lack::NotReached);
    };
    let told = put_decimal(output, Ok(()), first);
    let told = put(output, told, b" ");
    let told = put_decimal(output, told, second);
    said(put(output, told, b"\n"))
}

/// Writes the number of a word's fault, and the text of an object's.
fn tell_refusals<W: Write>(alloc: Global, output: &mut Counted<W>) -> Result<(), Lack> {
    let Some(word) = listing::fault_of_a_word(alloc) else {
        return Err(Lack::NotReached);
    };
    let Some(object) = object::fault_of_a_text(alloc) else {
        return Err(Lack::NotReached);
    };
    let told = put_decimal(output, Ok(()), u64::from(word.number()));
    let told = put(output, told, b" ");
    let told = put(output, told, object.text().as_bytes());
    said(put(output, told, b"\n"))
}

/// Writes what is printed of the faults, a line each.
fn tell_faults<W: Write>(alloc: Global, output: &mut Counted<W>) -> Result<(), Lack> {
    for (listing, length) in REFUSED {
        tell_text(output, faults::printed(alloc, listing, length))?;
    }
    Ok(())
}

/// Writes a text in a line, if there is one.
fn tell_text<W: Write>(output: &mut Counted<W>, text: Option<String>) -> Result<(), Lack> {
    match text {
        Some(text) => {
            let told = put(output, Ok(()), text.as_bytes());
            said(put(output, told, b"\n"))
        }
        None => Err(Lack::NotReached),
    }
}

/// What r0 holds in the machine.
fn of_machine(alloc: Global) -> Option<(u64, u64)> {
    machine::play(&mut machine::machine(alloc)?)
}

/// How many moves the timeline kept, and where its machine stands.
fn of_history(alloc: Global) -> Option<(u64, u64)> {
    let (kept, pc) = history::play(&mut history::timeline(alloc, machine::machine(alloc)?)?);
    Some((kept as u64, u64::from(pc)))
}

/// What the session replies.
fn of_session(alloc: Global) -> Option<Vec<u8>> {
    let mut session = session::session(alloc, machine::machine(alloc)?)?;
    session::replies(alloc, &mut session, b"stepi 2\nreverse-stepi\n")
}

/// What the connection answers.
fn of_connection(alloc: Global) -> Option<Vec<u8>> {
    let mut session = session::session(alloc, machine::machine(alloc)?)?;
    connection::answers(alloc, &mut session, b"$s#73")
}
