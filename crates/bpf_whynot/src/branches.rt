//! The branches that decided that a value came about and that a program came to where it stands:
//! one pass over its history, each move taken back once.
ghost use Rattle.std.specs.Prelude.{◌≡◌, ◌<◌, ◌+◌, ◌-◌, ◌==◌, ◌∷◌, ℕ, List, IfOk, false, if◌then◌else◌};
ghost use Rattle.bpf_journal.specs.Histories.{Record};
ghost use Rattle.bpf_journal.specs.Tracks.{Follows, Track};
ghost use Rattle.bpf_origin.specs.Pasts.{CourseStands, stand};
ghost use Rattle.bpf_whynot.specs.Branches as spec;
ghost use Rattle.bpf_whynot.specs.Courses.{IsSameCourse, TellsBranches};
ghost use Rattle.bpf_whynot.specs.BranchTurns.{Begins, Chases, Knows, Takes};
ghost use Rattle.bpf_steps.specs.State.{State};
ghost use Rattle.counted_io.specs.Writing.{WritesAfter};

use crate::branch_aim::Aim;
use crate::hunt::{Hunt, Turn, Undone};
use crate::keep::Keep;
use crate::turn::{chase, turn};
use crate::value::{spare_written, want_read};
use crate::{Standing, Sure};
use bpf_journal::{Course, Keeper};
use bpf_machine::Cpu;
use bpf_origin::{Extent, Part, Past, Question, Told, Wanted};
use counted_io::{Counted, WriteFault, put};
use std::alloc::{AllocError, Global};
use std::io::Write;

/// Writes the branches that decided that the moves were made which the answer about some parts tells,
/// and that the program came to where it stands: a line a branch, the newest first, and how far back
/// that goes. Each move is taken back, so it ends at the oldest state that is kept, or where the
/// answer is cut. Without memory nothing is said. What was wanted before doesn't count.
pub fn put_branches<K: Keeper, W: Write>(
    alloc: Global,
    course: &mut Course<K>,
    wanted: &mut Wanted,
    parts: &[Part],
    question: Question<'_>,
    writer: &mut Counted<W>,
    so_far: Result<(), WriteFault>,
) -> Result<Told, AllocError>
    ensures tells { IfOk result (λ told. (t : Track) → Follows K.holds course.old t →
        TellsBranches K.holds question.entry (WritesAfter W.contents writer.old so_far writer.new)
        parts.now course.old course.new told t) }
    ensures keeper { IsSameCourse K.room K.refused course.old course.new }
{
    wanted.clear();
    let _all = wanted.want_parts(parts);
    let mut hunt = match begin(alloc, course.cpu(), wanted, question, so_far) {
        Ok(hunt) => hunt,
        Err(error) => return Err(error),
    };
    let kept = course.len();
    for k in 0..kept {
        let moves = k as u64 + 1;
        let turn = match take(alloc, course, moves, question, hunt, wanted, writer) {
            Ok(turn) => turn,
            Err(error) => return Err(error),
        };
        match turn {
            Turn::On(next) => hunt = next,
            Turn::Cut(written) => {
                return Ok(Told {
                    written,
                    extent: Extent::Lines,
                    moves,
                });
            }
        }
    }
    let last = put_end(writer, hunt.told, question.opening);
    Ok(Told {
        written: last,
        extent: Extent::Whole,
        moves: kept as u64,
    })
}

/// The pass from where a machine stands on.
fn begin(
    alloc: Global,
    cpu: &Cpu,
    wanted: &Wanted,
    question: Question<'_>,
    so_far: Result<(), WriteFault>,
) -> Result<Hunt, AllocError>
    ensures { IfOk result (λ hunt. Begins cpu.now question.entry so_far wanted.now hunt) }
{
    cpu.invariant();
    let aim = Aim::of(cpu);
    let sure = match Sure::find(alloc, cpu.program(), aim.slot) {
        Ok(sure) => sure,
        Err(error) => return Err(error),
    };
    match Keep::find(alloc, cpu.program(), aim, wanted, question.lines) {
        Ok(keep) => Ok(Hunt {
            aim,
            sure,
            values: question.lines,
            lines: question.lines,
            told: so_far,
            keep,
        }),
        Err(error) => Err(error),
    }
}

/// Takes the newest move back, the one with this number, and takes notice of it.
fn take<K: Keeper, W: Write>(
    alloc: Global,
    course: &mut Course<K>,
    number: u64,
    question: Question<'_>,
    hunt: Hunt,
    wanted: &mut Wanted,
    writer: &mut Counted<W>,
) -> Result<Turn, AllocError>
    ensures takes { IfOk result (λ turn. (k : ℕ) (r : Record) (h f : List Record) →
        number ≡ k + 1 → Follows K.holds course.old (record { history = r ∷ h; ahead = f }) →
        Knows course.old.state hunt → Takes W.contents question.entry k r h course.old.state
        wanted.old wanted.new writer.old hunt writer.new turn) }
    ensures back { (r : Record) (h f : List Record) →
        Follows K.holds course.old (record { history = r ∷ h; ahead = f }) →
        CourseStands K.holds course.new (stand h (r ∷ f) r.before) }
    ensures keeper { IsSameCourse K.room K.refused course.old course.new }
{
    let after = Standing::of(course.cpu());
    let hit = spare_written(course, wanted);
    let Some(taken) = course.take_back() else {
        return Ok(Turn::On(hunt));
    };
    let cpu = course.cpu();
    let is_told = has_line(hit, hunt.values);
    if is_told {
        let _all = want_read(cpu, taken.is_step, question.addresses, wanted);
        return follow(alloc, cpu, wanted, hunt);
    }
    let undone = Undone {
        number,
        is_step: taken.is_step,
        after,
    };
    turn(alloc, cpu, undone, question, hunt, wanted, writer)
}

/// Whether the answer about values tells a move, with so many more lines.
fn has_line(hit: bool, values: u64) -> bool
    ensures { result ≡ (if values == 0 then false else hit) }
{
    if values == 0 { false } else { hit }
}

/// Looks from now on for how the machine came to a move that made a value, the next one from where
/// it stands.
fn follow(alloc: Global, cpu: &Cpu, wanted: &Wanted, hunt: Hunt) -> Result<Turn, AllocError>
    ensures { IfOk result (λ turn. (x : State) → cpu.now ≡ x → Knows x hunt →
        Chases x wanted.now (spec.aim_at x) (record hunt { values = hunt.values - 1 }) turn) }
{
    chase(
        alloc,
        cpu,
        wanted,
        Hunt {
            aim: hunt.aim,
            sure: hunt.sure,
            values: hunt.values.saturating_sub(1),
            lines: hunt.lines,
            told: hunt.told,
            keep: hunt.keep,
        },
    )
}

/// Writes how far back the answer goes.
fn put_end<W: Write>(
    writer: &mut Counted<W>,
    so_far: Result<(), WriteFault>,
    opening: bool,
) -> Result<(), WriteFault>
    ensures { WritesAfter W.contents writer.old so_far writer.new result (spec.end_text opening) }
{
    if opening {
        put(writer, so_far, b"no other branch; at the opening\n")
    } else {
        put(
            writer,
            so_far,
            b"no other branch; before the kept history\n",
        )
    }
}
