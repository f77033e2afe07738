//! Where values came from: one pass over a history, each move taken back once.
ghost use Rattle.counted_io.specs.Writing.{WritesAfter};
ghost use Rattle.std.specs.Prelude.{◌≡◌, ◌<◌, ◌≤◌, ◌∷◌, [], ◌+◌, ◌-◌, length, ◌^◌, ℕ, List, Some, None, true, false, if◌then◌else◌};
ghost use Rattle.bpf_entries.specs.declared.entry.Entry.{Entry as the_entry};
ghost use Rattle.bpf_entries.specs.Past.{Fewer, past};
ghost use Rattle.bpf_entries.specs.Status.{has_ended};
ghost use Rattle.bpf_journal.specs.Histories.{Record, is_step};
ghost use Rattle.bpf_journal.specs.Tracks.{Track};
ghost use Rattle.bpf_steps.specs.State.{depth};
ghost use Rattle.bpf_machine.specs.declared.moves.Move.{Move};
ghost use Rattle.bpf_origin.specs.declared.place.Part.TheVariants as the_part;
ghost use Rattle.bpf_origin.specs.declared.place.Place.{Place};
ghost use Rattle.bpf_origin.specs.Answers.{TellsOrigin, answer, past_by};
ghost use Rattle.bpf_origin.specs.Pasts.{IsSameKeeper};
ghost use Rattle.bpf_origin.specs.Reads as reads;
ghost use Rattle.bpf_origin.specs.Turns.{PassesOver, TakesOne, TakesTurn, TellsRest, WentBack, parts_of};
ghost use Rattle.bpf_origin.specs.Wanted as spec;
ghost use Rattle.bpf_ring.specs.Touched.{touched_by};
ghost use Rattle.bpf_origin.specs.Writes as writes;

use crate::left::put_left;
use crate::line::{put_head, put_tail};
use crate::past::Past;
use crate::place::Part;
use crate::question::{Extent, Question, Told};
use crate::reads::{Parts, followed, numbered_part};
use crate::wanted::Wanted;
use crate::writes::written;
use bpf_journal::Touched;
use bpf_machine::{Cpu, Entry};
use counted_io::{Counted, WriteFault, put};
use std::io::Write;

/// What became of one move of the pass.
#[derive(Drop)]
pub struct Turn {
    /// Whether what was told could be written.
    pub written: Result<(), WriteFault>,
    /// How many more lines there may be.
    pub lines: u64,
    /// Where the answer is cut.
    pub cut: Option<Extent>,
    /// How many moves were taken back: the one, or none.
    pub taken: u64,
}

/// Writes where the values at the wanted places came from: a line a move that wrote one of them,
/// the newest first, and then a line a place that is left. Each move is taken back, so it ends at
/// the oldest state that is kept, or where the answer is cut. What is wanted behind it isn't said.
pub fn put_origin<P: Past, W: Write>(
    history: &mut P,
    wanted: &mut Wanted,
    question: Question<'_>,
    writer: &mut Counted<W>,
    so_far: Result<(), WriteFault>,
) -> Told
    ensures { TellsOrigin (past_by P.state P.follows P.room P.refused)
        (λ (t : Track). answer question.entry 0 question.entry.lines wanted.old t.history
        (P.state history.old)) history.old history.new
        (WritesAfter W.contents writer.old so_far writer.new) result }
{
    let mut told = so_far;
    let mut lines = question.lines;
    let kept = history.moves();
    for k in 0..kept {
        if pass_over(history, wanted) {
            continue;
        }
        let turn = take_turn(history, wanted, question, k as u64, lines, writer, told);
        match turn.cut {
            Some(extent) => {
                return Told {
                    written: turn.written,
                    extent,
                    moves: k as u64 + turn.taken,
                };
            }
            None => {
                told = turn.written;
                lines = turn.lines;
            }
        }
    }
    let last = put_left(
        writer,
        told,
        question.opening,
        history.machine(),
        wanted.as_slice(),
    );
    Told {
        written: last,
        extent: Extent::Whole,
        moves: kept as u64,
    }
}

/// Takes the newest move back where it wrote no wanted place, and answers whether it did. What it
/// wrote is read off its entry where that lies. Else nothing changes.
#[inline(always)]
fn pass_over<P: Past>(history: &mut P, wanted: &mut Wanted) -> bool
    ensures passed { result ≡ true → (r : Record) (h f : List Record) →
        P.follows history.old (record { history = r ∷ h; ahead = f }) →
        PassesOver P.state P.follows wanted.old wanted.new r h f
        (P.state history.old) history.new }
    ensures stays { result ≡ false →
        (history.new ≡ history.old) × (wanted.new ≡ wanted.old) }
    ensures keeper { IsSameKeeper P.room P.refused history.old history.new }
{
    let Some(touched) = history.touched() else {
        return false;
    };
    let deep = history.machine().depth();
    if is_hit(wanted, history.machine(), touched) {
        return false;
    }
    let _taken = history.take_back();
    carry_over(wanted, touched, deep);
    true
}

/// Whether a move wrote a wanted place that led to a machine's state and touched this.
#[inline(always)]
fn is_hit(wanted: &Wanted, cpu: &Cpu, touched: Touched) -> bool
    ensures { result
        ≡ spec.are_hit (parts_of (depth cpu.now) (length cpu.now.trace) touched) wanted.now }
{
    match touched {
        Touched::Nothing => false,
        Touched::Register { number } => is_wanted(wanted, numbered_part(cpu.depth(), number)),
        Touched::Bytes { address, len } | Touched::Frame { address, len } => {
            is_wanted(wanted, Part::Bytes { address, len })
        }
        Touched::Both {
            number,
            address,
            len,
        } => {
            is_wanted(wanted, numbered_part(cpu.depth(), number))
                || is_wanted(wanted, Part::Bytes { address, len })
        }
        Touched::Word => {
            is_wanted(wanted, numbered_part(cpu.depth(), 0))
                || is_wanted(wanted, word_part(cpu.trace().len()))
        }
    }
}

/// Whether a place of a part is wanted.
#[inline(always)]
fn is_wanted(wanted: &Wanted, part: Part) -> bool
    ensures { result ≡ spec.are_hit (part ∷ []) wanted.now }
{
    wanted.are_hit(&[part])
}

/// The newest one of so many traced words.
#[inline(always)]
fn word_part(words: usize) -> Part
    ensures { result ≡ the_part.Word (words - 1) }
{
    Part::Word {
        index: words.saturating_sub(1),
    }
}

/// What is wanted before a move that touched this and left a depth of calls, where it wrote none of
/// that.
#[inline(always)]
fn carry_over(wanted: &mut Wanted, touched: Touched, deep: usize)
    ensures { (e : the_entry) → touched ≡ touched_by deep e →
        wanted.new ≡ spec.carried (past deep e).frames deep wanted.old }
{
    match touched {
        Touched::Frame { .. } => wanted.carry(deep),
        _ => {}
    }
}

/// Takes the newest move back, after `moves` that were taken back before, and tells it where it
/// wrote a wanted place.
fn take_turn<P: Past, W: Write>(
    history: &mut P,
    wanted: &mut Wanted,
    question: Question<'_>,
    moves: u64,
    lines: u64,
    writer: &mut Counted<W>,
    so_far: Result<(), WriteFault>,
) -> Turn
    requires { moves + 1 < 2 ^ 64 }
    ensures takes { (r : Record) (h f : List Record) →
        P.follows history.old (record { history = r ∷ h; ahead = f }) →
        TakesTurn P.state P.follows W.contents question.entry moves lines wanted.old wanted.new r h f
        (P.state history.old) history.new writer.old so_far writer.new result }
    ensures one { result.taken ≤ 1 }
    ensures keeper { IsSameKeeper P.room P.refused history.old history.new }
{
    let Some((entry, _)) = history.newest() else {
        return go_on(so_far, lines);
    };
    let wrote = written(history.machine(), &entry);
    if !wanted.are_hit(wrote.as_slice()) {
        pass(wanted, history.machine(), &entry, wrote.as_slice());
        let _taken = history.take_back();
        return go_on(so_far, lines);
    }
    if lines == 0 {
        let last = put(writer, so_far, b"cut: there are more lines\n");
        return cut(last, Extent::Lines, 0);
    }
    let headed = put_head(
        writer,
        so_far,
        moves + 1,
        history.machine(),
        wrote.as_slice(),
    );
    pass(wanted, history.machine(), &entry, wrote.as_slice());
    tell_rest(history, wanted, question, lines - 1, writer, headed)
}

/// Takes the newest move back, tells which it was and what it read, and wants that.
fn tell_rest<P: Past, W: Write>(
    history: &mut P,
    wanted: &mut Wanted,
    question: Question<'_>,
    lines: u64,
    writer: &mut Counted<W>,
    so_far: Result<(), WriteFault>,
) -> Turn
    ensures back { (r : Record) (h f : List Record) →
        P.follows history.old (record { history = r ∷ h; ahead = f }) →
        WentBack P.state P.follows W.contents r h f history.new }
    ensures tells { (r : Record) (h f : List Record) →
        P.follows history.old (record { history = r ∷ h; ahead = f }) →
        TellsRest W.contents question.entry r wanted.old wanted.new writer.old so_far writer.new result }
    ensures turn { TakesOne lines result }
    ensures keeper { IsSameKeeper P.room P.refused history.old history.new }
{
    let Some(taken) = history.take_back() else {
        return go_on(so_far, lines);
    };
    let read = read_by(history.machine(), taken.is_step, question.addresses);
    let told = put_tail(
        writer,
        so_far,
        question.places,
        history.machine(),
        taken.is_step,
        read.as_slice(),
    );
    if !wanted.want_parts(read.as_slice()) {
        let last = put(writer, told, b"cut: more than 4096 places are wanted\n");
        return cut(last, Extent::Places, 1);
    }
    go_on(told, lines)
}

/// The pass goes on, with room for so many lines.
fn go_on(written: Result<(), WriteFault>, lines: u64) -> Turn
    ensures { result ≡ record { written = written; lines = lines; cut = None; taken = 1 } }
{
    Turn {
        written,
        lines,
        cut: None,
        taken: 1,
    }
}

/// The answer is cut, after so many moves that the turn took back.
fn cut(written: Result<(), WriteFault>, extent: Extent, taken: u64) -> Turn
    ensures { result
        ≡ record { written = written; lines = 0; cut = Some extent; taken = taken } }
{
    Turn {
        written,
        lines: 0,
        cut: Some(extent),
        taken,
    }
}

/// What is wanted before a move that led to a machine's state, without what it reads.
fn pass(wanted: &mut Wanted, cpu: &Cpu, entry: &Entry, wrote: &[Part])
    requires { wrote.now ≡ writes.written cpu.now entry.now }
    ensures { wanted.new ≡ spec.still_wanted cpu.now entry.now wanted.old }
{
    wanted.spare(wrote);
    if is_call(entry) {
        wanted.carry(cpu.depth());
    }
}

/// Whether an entry is a local call's.
fn is_call(entry: &Entry) -> bool
    ensures { (deep d : ℕ) (places : List Place) →
        (if result then spec.carried Fewer d places else places)
        ≡ spec.carried (past deep entry.now).frames d places }
{
    match entry {
        Entry::Call { .. } => true,
        _ => false,
    }
}

/// What a move read that was taken back: a step in the state before it, or an edit nothing.
fn read_by(cpu: &Cpu, is_a_step: bool, addresses: bool) -> Parts
    requires { is_a_step ≡ true → has_ended cpu.now.status ≡ false }
    ensures { (m : Move) → is_a_step ≡ is_step m →
        result.items ≡ reads.followed addresses cpu.now m }
{
    if is_a_step {
        followed(cpu, addresses)
    } else {
        Parts::new()
    }
}
