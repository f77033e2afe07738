//! What is printed for a reply.
ghost use Rattle.std.specs.Prelude.{List, length};
ghost use Rattle.bpf_journal.specs.Tracks.{Track};
ghost use Rattle.bpf_journal.specs.Lookups.{last_change};
ghost use Rattle.counted_io.specs.Writing.{Writes, WritesAfter};
ghost use Rattle.bpf_session.specs.Replies.{IsInSight, IsThere, text_of_last, text_of_reply, text_of_view};
ghost use Rattle.bpf_session.specs.Sessions.{HasPast, bounds_of, point_of};

use super::Session;
use crate::reply::Reply;
use crate::watches::byte_at;
use bpf_journal::Keeper;
use bpfdb_script::{
    View, put_breaks, put_bytes, put_change, put_frames, put_history, put_instructions, put_move,
    put_state, put_trace, put_unchanged,
};
use counted_io::{Counted, WriteFault, put};
use std::io::Write;

impl<K: Keeper> Session<K> {
    /// Writes the lines of a reply, from the session's present state. The bytes that it names are
    /// present, and an instruction starts at its slot, as after the `apply` that answered it.
    pub fn write_reply<W: Write>(
        &self,
        reply: &Reply,
        writer: &mut Counted<W>,
    ) -> Result<(), WriteFault>
        requires there { IsThere reply.now self.now.moment.state }
        ensures { (h : Track) → HasPast K.holds self.now h →
            Writes W.contents writer.old writer.new result
            (text_of_reply (bounds_of K.room self.now) reply.now (point_of self.now h)) }
    {
        self.put_reply(writer, Ok(()), reply)
    }

    /// Writes the lines of a reply after what was written so far.
    #[tactic(auto, unfolding(crate::specs::Replies::text_of_reply))]
    fn put_reply<W: Write>(
        &self,
        writer: &mut Counted<W>,
        so_far: Result<(), WriteFault>,
        reply: &Reply,
    ) -> Result<(), WriteFault>
        requires there { IsThere reply.now self.now.moment.state }
        ensures { (h : Track) → HasPast K.holds self.now h →
            WritesAfter W.contents writer.old so_far writer.new result
            (text_of_reply (bounds_of K.room self.now) reply.now (point_of self.now h)) }
    {
        let cpu = self.cpu();
        match *reply {
            Reply::Forward { steps, why } => {
                put_move(writer, so_far, steps, b" forward; ", why, cpu)
            }
            Reply::Back { moves, why } => put_move(writer, so_far, moves, b" back; ", why, cpu),
            Reply::Redone { moves, why } => put_move(writer, so_far, moves, b" redone; ", why, cpu),
            Reply::Ok => put(writer, so_far, b"ok\n"),
            Reply::Shown(view) => self.put_view(writer, so_far, view),
            Reply::Nothing => so_far,
        }
    }

    /// Writes the lines of a view.
    #[tactic(auto, unfolding(crate::specs::Replies::text_of_view))]
    fn put_view<W: Write>(
        &self,
        writer: &mut Counted<W>,
        so_far: Result<(), WriteFault>,
        view: View,
    ) -> Result<(), WriteFault>
        requires there { IsInSight view self.now.moment.state }
        ensures { (h : Track) → HasPast K.holds self.now h →
            WritesAfter W.contents writer.old so_far writer.new result
            (text_of_view (bounds_of K.room self.now) view (point_of self.now h)) }
    {
        let cpu = self.cpu();
        match view {
            View::Registers => put_state(writer, so_far, cpu),
            View::Frames => put_frames(writer, so_far, cpu),
            View::Breaks => put_breaks(
                writer,
                so_far,
                self.breaks.as_slice(),
                self.watches.as_slice(),
            ),
            View::History => put_history(
                writer,
                so_far,
                self.timeline.len(),
                self.timeline.marked(),
                self.timeline.weight(),
                self.keeper().capacity(),
            ),
            View::Trace => put_trace(writer, so_far, cpu),
            View::Bytes { address, span } => put_bytes(writer, so_far, cpu, address, span),
            View::Instructions { slot, span } => {
                put_instructions(writer, so_far, cpu.program(), slot as usize, span)
            }
            View::LastWrite(address) => self.put_last(writer, so_far, address),
        }
    }

    /// Writes the latest kept change of the byte at an address.
    fn put_last<W: Write>(
        &self,
        writer: &mut Counted<W>,
        so_far: Result<(), WriteFault>,
        address: u64,
    ) -> Result<(), WriteFault>
        ensures { (h : Track) → HasPast K.holds self.now h →
            WritesAfter W.contents writer.old so_far writer.new result
            (text_of_last (last_change address h.history self.now.moment.state)
            (length h.history)) }
    {
        let value = byte_at(self.cpu(), address);
        match self.timeline.last_change(address, value) {
            Some(change) => put_change(writer, so_far, change.moves, change.old, change.new),
            None => put_unchanged(writer, so_far, self.timeline.len()),
        }
    }
}
