//! Why a program did not come to some slots: one pass over its history, each move taken back once.
ghost use Rattle.std.specs.Prelude.{◌≡◌, ◌<◌, ◌+◌, ℕ, List};
ghost use Rattle.bpf_isa.specs.Programs.{Checked};
ghost use Rattle.bpf_journal.specs.Histories.{Record, is_step as is_step_of};
ghost use Rattle.bpf_journal.specs.Tracks.{Track};
ghost use Rattle.bpf_steps.specs.State.{State};
ghost use Rattle.bpf_origin.specs.Answers.{TellsOrigin, past_by};
ghost use Rattle.bpf_origin.specs.Pasts.{IsSameKeeper};
ghost use Rattle.bpf_origin.specs.declared.question.Extent.TheVariants.{Whole};
ghost use Rattle.bpf_whynot.specs.Answers as spec;
ghost use Rattle.bpf_whynot.specs.Asking.{query};
ghost use Rattle.bpf_whynot.specs.Tables.{AreGoals, told_by};
ghost use Rattle.bpf_whynot.specs.Standings.{standing};
ghost use Rattle.bpf_whynot.specs.Turns.{GoesTo};
ghost use Rattle.counted_io.specs.Writing.{WritesAfter};

use crate::line::{compared, put_line};
use crate::made_line::put_made;
use crate::reach::{Reach, is_flagged};
use crate::search::Search;
use crate::standing::Standing;
use bpf_machine::Cpu;
use bpf_origin::{Extent, Past, Told, Wanted, put_answer};
use bpfdb_script::put_place;
use counted_io::{Counted, Piece, WriteFault, put, put_all};
use std::io::Write;

/// The move that is looked for.
#[derive(Clone, Copy)]
pub struct Left {
    /// How many moves it lies back.
    pub moves: u64,
    /// Where the machine stood after it.
    pub after: Standing,
    /// Whether it was a step, and no edit.
    pub is_step: bool,
}

/// Writes the newest kept move that made the value which is asked about, if one did, and why the
/// program did not come to the goals: that it still can; or the latest kept move from whose state it
/// could, what that compared and where it went, and where the values came from; or that it never
/// could since the oldest kept state. Moves are taken back as far as that goes.
pub fn put_whynot<P: Past, W: Write>(
    history: &mut P,
    search: &Search<'_>,
    wanted: &mut Wanted,
    writer: &mut Counted<W>,
    so_far: Result<(), WriteFault>,
) -> Told
    ensures { (program : Checked) (goals : List ℕ) → AreGoals program goals search.now.goals.now →
        TellsOrigin (past_by P.state P.follows P.room P.refused) (λ (t : Track). spec.why_not
        (told_by search.now.reach.now) (query search.now goals) t.history (P.state history.old))
        history.old history.new (WritesAfter W.contents writer.old so_far writer.new) result }
{
    let Some(made) = search.made else {
        return put_not_come(history, search, wanted, writer, so_far);
    };
    let places = search.question.places;
    let told = put_made(writer, so_far, places, history.machine().program(), made);
    if has_none(search.goals) {
        return put_over(history, search, wanted, made.branch, writer, told);
    }
    put_not_come(history, search, wanted, writer, told)
}

/// Writes after which branch the value was overwritten, where each instruction made it.
fn put_over<P: Past, W: Write>(
    history: &mut P,
    search: &Search<'_>,
    wanted: &mut Wanted,
    branch: Option<u64>,
    writer: &mut Counted<W>,
    so_far: Result<(), WriteFault>,
) -> Told
    ensures { (program : Checked) (goals : List ℕ) → AreGoals program goals search.now.goals.now →
        TellsOrigin (past_by P.state P.follows P.room P.refused) (λ (t : Track). spec.over_at
        (query search.now goals) branch t.history (P.state history.old))
        history.old history.new (WritesAfter W.contents writer.old so_far writer.new) result }
{
    match branch {
        Some(moves) => {
            let begun = put(writer, so_far, b"overwritten: ");
            put_back(history, search, wanted, moves, writer, begun)
        }
        None => only(
            put(writer, so_far, b"each instruction that makes it ran\n"),
            0,
        ),
    }
}

/// Writes the line of the move that lies so many back, and what it compared.
fn put_back<P: Past, W: Write>(
    history: &mut P,
    search: &Search<'_>,
    wanted: &mut Wanted,
    moves: u64,
    writer: &mut Counted<W>,
    so_far: Result<(), WriteFault>,
) -> Told
    ensures { (program : Checked) (goals : List ℕ) → AreGoals program goals search.now.goals.now →
        TellsOrigin (past_by P.state P.follows P.room P.refused) (λ (t : Track). spec.left_after
        (spec.lies_at moves) (query search.now goals) 0 t.history (P.state history.old))
        history.old history.new (WritesAfter W.contents writer.old so_far writer.new) result }
{
    let kept = history.moves();
    match go_to(history, moves) {
        Some(left) => {
            let told = put_left(history, search, wanted, left, writer, so_far);
            Told {
                written: told.written,
                extent: told.extent,
                moves: left.moves.saturating_add(told.moves),
            }
        }
        None => only(
            put_never(writer, so_far, search.question.opening),
            kept as u64,
        ),
    }
}

/// Whether no goal is flagged.
fn has_none(flags: &[bool]) -> bool
    ensures { (program : Checked) (goals : List ℕ) → AreGoals program goals flags.now →
        result ≡ spec.has_none goals }
{
    for slot in 0..flags.len() {
        if is_flagged(flags, slot) {
            return false;
        }
    }
    true
}

/// Writes why a program did not come to the goals.
fn put_not_come<P: Past, W: Write>(
    history: &mut P,
    search: &Search<'_>,
    wanted: &mut Wanted,
    writer: &mut Counted<W>,
    so_far: Result<(), WriteFault>,
) -> Told
    ensures { (program : Checked) (goals : List ℕ) → AreGoals program goals search.now.goals.now →
        TellsOrigin (past_by P.state P.follows P.room P.refused) (λ (t : Track). spec.not_come
        (told_by search.now.reach.now) (query search.now goals) t.history (P.state history.old))
        history.old history.new (WritesAfter W.contents writer.old so_far writer.new) result }
{
    if search.reach.can_from(history.machine()) {
        return only(put(writer, so_far, b"it can still be reached\n"), 0);
    }
    let kept = history.moves();
    match go_back(history, search.reach) {
        Some(left) => {
            let told = put_left(history, search, wanted, left, writer, so_far);
            Told {
                written: told.written,
                extent: told.extent,
                moves: left.moves.saturating_add(told.moves),
            }
        }
        None => only(
            put_never(writer, so_far, search.question.opening),
            kept as u64,
        ),
    }
}

/// A text that was written is the whole answer, after so many moves that were taken back.
fn only(written: Result<(), WriteFault>, moves: u64) -> Told
    ensures { result ≡ record { written = written; extent = Whole; moves = moves } }
{
    Told {
        written,
        extent: Extent::Whole,
        moves,
    }
}

/// Takes moves back up to the latest one from whose state a goal can be come to, and that one.
fn go_back<P: Past>(history: &mut P, reach: &Reach) -> Option<Left>
    ensures goes { (t : Track) → P.follows history.old t →
        GoesTo P.state P.follows (spec.reaches (told_by reach.now)) t (P.state history.old)
        history.new result }
    ensures keeper { IsSameKeeper P.room P.refused history.old history.new }
{
    for k in 0..history.moves() {
        let after = Standing::of(history.machine());
        let Some(taken) = history.take_back() else {
            return None;
        };
        if reach.can_from(history.machine()) {
            return Some(Left {
                moves: k as u64 + 1,
                after,
                is_step: taken.is_step,
            });
        }
    }
    None
}

/// Takes so many moves back.
fn go_to<P: Past>(history: &mut P, moves: u64) -> Option<Left>
    ensures goes { (t : Track) → P.follows history.old t →
        GoesTo P.state P.follows (spec.lies_at moves) t (P.state history.old) history.new result }
    ensures keeper { IsSameKeeper P.room P.refused history.old history.new }
{
    for k in 0..history.moves() {
        let after = Standing::of(history.machine());
        let Some(taken) = history.take_back() else {
            return None;
        };
        let number = k as u64 + 1;
        if number == moves {
            return Some(Left {
                moves: number,
                after,
                is_step: taken.is_step,
            });
        }
    }
    None
}

/// Writes that a goal could not be come to from any kept state.
fn put_never<W: Write>(
    writer: &mut Counted<W>,
    so_far: Result<(), WriteFault>,
    opening: bool,
) -> Result<(), WriteFault>
    ensures { WritesAfter W.contents writer.old so_far writer.new result (spec.never_text opening) }
{
    if opening {
        put(writer, so_far, b"it was out of reach from the opening\n")
    } else {
        put(writer, so_far, b"it was out of reach before what is kept\n")
    }
}

/// Writes that a goal was reached.
#[tactic(auto, unfolding(crate::specs::Answers::reached_text))]
fn put_reached<W: Write>(
    writer: &mut Counted<W>,
    so_far: Result<(), WriteFault>,
    moves: u64,
) -> Result<(), WriteFault>
    ensures { WritesAfter W.contents writer.old so_far writer.new result (spec.reached_text moves) }
{
    let pieces = [
        Piece::Text(b"it was reached "),
        Piece::Decimal(moves),
        Piece::Text(b" moves back\n"),
    ];
    put_all(writer, so_far, &pieces)
}

/// Writes the answer where this move was taken back last.
fn put_left<P: Past, W: Write>(
    history: &mut P,
    search: &Search<'_>,
    wanted: &mut Wanted,
    left: Left,
    writer: &mut Counted<W>,
    so_far: Result<(), WriteFault>,
) -> Told
    ensures tells { (program : Checked) (goals : List ℕ) (r : Record) (y : State) →
        AreGoals program goals search.now.goals.now → P.state history.old ≡ r.before →
        left.is_step ≡ is_step_of r.move → left.after ≡ standing y →
        TellsOrigin (past_by P.state P.follows P.room P.refused)
        (λ (t : Track). spec.left_by (query search.now goals) left.moves r t.history y)
        history.old history.new (WritesAfter W.contents writer.old so_far writer.new) result }
    ensures keeper { IsSameKeeper P.room P.refused history.old history.new }
{
    if is_goal(search, history.machine(), left.is_step) {
        return only(put_reached(writer, so_far, left.moves), 0);
    }
    let told = put_line(
        writer,
        so_far,
        search.question.places,
        left.moves,
        history.machine(),
        left.is_step,
        left.after,
    );
    put_because(history, search, wanted, left.is_step, writer, told)
}

/// Whether a step that was taken back stood at a goal.
fn is_goal(search: &Search<'_>, cpu: &Cpu, is_step: bool) -> bool
    ensures { (program : Checked) (goals : List ℕ) (r : Record) →
        AreGoals program goals search.now.goals.now → cpu.now ≡ r.before →
        is_step ≡ is_step_of r.move → result ≡ spec.stood_at (query search.now goals) r }
{
    is_step && is_flagged(search.goals, usize::from(cpu.pc()))
}

/// Writes where the values came from that the move compared which was taken back last.
fn put_because<P: Past, W: Write>(
    history: &mut P,
    search: &Search<'_>,
    wanted: &mut Wanted,
    is_step: bool,
    writer: &mut Counted<W>,
    so_far: Result<(), WriteFault>,
) -> Told
    ensures tells { (goals : List ℕ) (r : Record) →
        P.state history.old ≡ r.before → is_step ≡ is_step_of r.move →
        TellsOrigin (past_by P.state P.follows P.room P.refused)
        (λ (t : Track). spec.because (query search.now goals) r t.history)
        history.old history.new (WritesAfter W.contents writer.old so_far writer.new) result }
    ensures keeper { IsSameKeeper P.room P.refused history.old history.new }
{
    let parts = compared(history.machine(), is_step);
    if search.alone || parts.is_empty() {
        return only(so_far, 0);
    }
    let placed = put_place(writer, so_far, history.machine());
    let ended = put(writer, placed, b"\n");
    put_answer(
        history,
        wanted,
        parts.as_slice(),
        search.question,
        writer,
        ended,
    )
}
