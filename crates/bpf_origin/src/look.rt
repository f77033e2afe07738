//! Answers that leave a course where it stands.
ghost use Rattle.std.specs.Prelude.{◌≡◌, ◌≤◌, ◌-◌, length};
ghost use Rattle.bpf_journal.specs.Histories.{IsRun};
ghost use Rattle.bpf_journal.specs.Tracks.{Follows, Track};
ghost use Rattle.bpf_steps.specs.State.{State};
ghost use Rattle.bpf_origin.specs.Asked.{answer_about};
ghost use Rattle.bpf_origin.specs.Pasts.{CourseStands, LeavesMoves, gone_from};
ghost use Rattle.counted_io.specs.Writing.{WritesAfter};

use crate::answer::put_answer;
use crate::place::Part;
use crate::question::Question;
use crate::wanted::Wanted;
use bpf_journal::{Course, Keeper};
use counted_io::{Counted, WriteFault};
use std::io::Write;

/// An answer that was written, and how it left the course.
#[derive(Drop)]
pub struct Looked {
    /// Whether it could be written.
    pub written: Result<(), WriteFault>,
    /// How many of the moves that were taken back for it the keeper refused to keep again. They can
    /// be made again.
    pub left: u64,
}

/// Writes where the values of these parts came from, as `put_answer` does, and then makes the moves
/// again that were taken back for it. So the course stands where it stood, unless the keeper
/// refuses one of them for want of memory.
pub fn look_back<K: Keeper, W: Write>(
    course: &mut Course<K>,
    wanted: &mut Wanted,
    parts: &[Part],
    question: Question<'_>,
    writer: &mut Counted<W>,
    so_far: Result<(), WriteFault>,
) -> Looked
    ensures text { (t : Track) → Follows K.holds course.old t →
        WritesAfter W.contents writer.old so_far writer.new result.written
        (answer_about question.entry parts.now t.history course.old.state).text }
    ensures stands { (t : Track) → Follows K.holds course.old t →
        CourseStands K.holds course.new (gone_from result.left t course.old.state) }
    ensures left { LeavesMoves K.refused course.old.keeper course.new.keeper result.left }
    ensures room { K.room course.new.keeper ≡ K.room course.old.keeper }
{
    let told = put_answer(course, wanted, parts, question, writer, so_far);
    Looked {
        written: told.written,
        left: go_on(course, told.moves),
    }
}

/// Makes so many moves again that were taken back, up to the first that the keeper refuses. Answers
/// how many of them are left.
pub fn go_on<K: Keeper>(course: &mut Course<K>, moves: u64) -> u64
    ensures stands { (t : Track) (y : State) → IsRun t.history y → moves ≤ length t.history →
        CourseStands K.holds course.old (gone_from moves t y) →
        CourseStands K.holds course.new (gone_from result t y) }
    ensures left { LeavesMoves K.refused course.old.keeper course.new.keeper result }
    ensures room { K.room course.new.keeper ≡ K.room course.old.keeper }
{
    for k in 0..moves {
        match course.redo() {
            Ok(_) => {}
            Err(_) => return moves - k,
        }
    }
    0
}
