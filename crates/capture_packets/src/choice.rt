//! The context that a file holds: the packet that is asked for, or all of it.
ghost use Rattle.std.specs.Prelude.{◌≡◌, IfErr, IfOk};
ghost use Rattle.capture_packets.specs.Choices.{IsChosen, IsUnchosen, short_note, whole_note};

use crate::fault::CaptureFault;
use crate::header::{is_capture, is_pcapng};
use crate::note::Note;
use crate::packet::{Captured, packet_of};
use std::alloc::Global;

/// A context, and what there is to tell of it.
#[derive(Clone, Copy)]
pub struct Chosen<'a> {
    pub bytes: &'a [u8],
    pub note: Option<Note>,
}

/// The context that a file holds: the packet of this number, or all of it where none is asked for.
pub fn choose<'a>(
    alloc: Global,
    file: &'a [u8],
    packet: Option<u64>,
) -> Result<Chosen<'a>, CaptureFault>
    ensures ok { IfOk result (IsChosen packet file.now) }
    ensures err { IfErr result (IsUnchosen packet file.now) }
{
    let Some(number) = packet else {
        return Ok(Chosen {
            bytes: file,
            note: whole_note(file),
        });
    };
    match packet_of(alloc, file, number) {
        Ok(captured) => Ok(Chosen {
            bytes: captured.bytes,
            note: short_note(number, &captured),
        }),
        Err(fault) => Err(fault),
    }
}

/// What there is to tell of all of a file.
fn whole_note(file: &[u8]) -> Option<Note>
    ensures { result ≡ whole_note file.now }
{
    if is_capture(file) || is_pcapng(file) {
        Some(Note::Whole)
    } else {
        None
    }
}

/// What there is to tell of a packet.
fn short_note(number: u64, captured: &Captured<'_>) -> Option<Note>
    ensures { result ≡ short_note number captured.now }
{
    let taken = captured.bytes.len() as u64;
    let sent = u64::from(captured.sent);
    if taken < sent {
        Some(Note::Short(number, taken, sent))
    } else {
        None
    }
}
