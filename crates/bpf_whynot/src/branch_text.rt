//! The branches of a machine with its journal, as a text of their own.
ghost use Rattle.std.specs.Prelude.{IfOk, List};
ghost use Rattle.bpf_journal.specs.Histories.{Record, StandsFor};
ghost use Rattle.bpf_journal.specs.Tracks.{RingHolds};
ghost use Rattle.bpf_whynot.specs.Courses.{IsFound};

use crate::branches::put_branches;
use bpf_journal::{Course, RingKeeper, Timeline};
use bpf_origin::{Extent, Part, Question, Wanted, go_on};
use counted_io::{Counted, WriteFault};
use std::alloc::{AllocError, Global};

/// The answer about where a machine stands, and the machine with its journal, as they were.
#[derive(Drop)]
pub struct Found {
    pub timeline: Timeline<RingKeeper>,
    pub text: Vec<u8>,
    pub extent: Extent,
}

/// Finds the branches that decided that the moves were made which the answer about some parts tells,
/// and that the program came to where it stands, as `put_branches` writes them. That goes back over
/// all that is kept and makes it again, and takes as much memory again as the journal has.
pub fn find_branches(
    alloc: Global,
    timeline: Timeline<RingKeeper>,
    wanted: &mut Wanted,
    parts: &[Part],
    question: Question<'_>,
) -> Result<Found, AllocError>
    ensures { IfOk result (λ found. (h : List Record) →
        StandsFor RingHolds timeline.keeper timeline.state h →
        IsFound question.entry parts.now h timeline.state found) }
{
    let (cpu, keeper) = timeline.close();
    let redo = match RingKeeper::open(alloc, keeper.capacity()) {
        Ok(redo) => redo,
        Err(_) => return Err(AllocError),
    };
    let mut course = Course::open(cpu, keeper, redo);
    let mut writer = Counted::new(Vec::new(alloc));
    let told = match put_branches(
        alloc,
        &mut course,
        wanted,
        parts,
        question,
        &mut writer,
        Ok(()),
    ) {
        Ok(told) => told,
        Err(error) => return Err(error),
    };
    let _left = go_on(&mut course, told.moves);
    match told.written {
        Ok(()) => {
            let (cpu, keeper) = course.close();
            Ok(Found {
                timeline: Timeline::open(cpu, keeper),
                text: writer.into_inner(),
                extent: told.extent,
            })
        }
        Err(WriteFault) => Err(AllocError),
    }
}
