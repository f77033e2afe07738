//! Answers that leave a course where it stands.
ghost use Rattle.std.specs.Prelude.{ℕ, List};
ghost use Rattle.bpf_isa.specs.Programs.{Checked};
ghost use Rattle.bpf_journal.specs.Tracks.{Follows, Track};
ghost use Rattle.bpf_whynot.specs.Answers as spec;
ghost use Rattle.bpf_whynot.specs.Asking.{query};
ghost use Rattle.bpf_whynot.specs.Looks.{ComesBack};
ghost use Rattle.bpf_whynot.specs.Tables.{AreGoals, told_by};
ghost use Rattle.counted_io.specs.Writing.{WritesAfter};

use crate::search::Search;
use crate::whynot::put_whynot;
use bpf_journal::{Course, Keeper};
use bpf_origin::{Looked, Wanted, go_on};
use counted_io::{Counted, WriteFault};
use std::io::Write;

/// Writes why a program did not come to the goals, as `put_whynot` does, and then makes the moves
/// again that were taken back for it. So the course stands where it stood, unless the keeper
/// refuses one of them for want of memory.
pub fn look_why<K: Keeper, W: Write>(
    course: &mut Course<K>,
    search: &Search<'_>,
    wanted: &mut Wanted,
    writer: &mut Counted<W>,
    so_far: Result<(), WriteFault>,
) -> Looked
    ensures text { (program : Checked) (goals : List ℕ) →
        AreGoals program goals search.now.goals.now → (t : Track) → Follows K.holds course.old t →
        WritesAfter W.contents writer.old so_far writer.new result.written (spec.why_not
        (told_by search.now.reach.now) (query search.now goals) t.history course.old.state).text }
    ensures back { (program : Checked) (goals : List ℕ) →
        AreGoals program goals search.now.goals.now →
        ComesBack K.holds K.refused K.room course.old course.new result.left }
{
    let told = put_whynot(course, search, wanted, writer, so_far);
    Looked {
        written: told.written,
        left: go_on(course, told.moves),
    }
}
