//! The whole answer to where the values of some parts came from.
ghost use Rattle.counted_io.specs.Writing.{WritesAfter};
ghost use Rattle.bpf_journal.specs.Tracks.{Track};
ghost use Rattle.bpf_origin.specs.Answers.{TellsOrigin, past_by};
ghost use Rattle.bpf_origin.specs.Asked.{answer_about};

use crate::origin::put_origin;
use crate::past::Past;
use crate::place::Part;
use crate::question::{Extent, Question, Told};
use crate::wanted::Wanted;
use counted_io::{Counted, WriteFault, put};
use std::io::Write;

/// Writes where the values of these parts came from, as `put_origin` does of wanted places. What was
/// wanted before doesn't count.
pub fn put_answer<P: Past, W: Write>(
    history: &mut P,
    wanted: &mut Wanted,
    parts: &[Part],
    question: Question<'_>,
    writer: &mut Counted<W>,
    so_far: Result<(), WriteFault>,
) -> Told
    ensures { TellsOrigin (past_by P.state P.follows P.room P.refused)
        (λ (t : Track). answer_about question.entry parts.now t.history (P.state history.old))
        history.old history.new (WritesAfter W.contents writer.old so_far writer.new) result }
{
    wanted.clear();
    if !wanted.want_parts(parts) {
        return Told {
            written: put(writer, so_far, b"cut: more than 4096 places are wanted\n"),
            extent: Extent::Places,
            moves: 0,
        };
    }
    put_origin(history, wanted, question, writer, so_far)
}
