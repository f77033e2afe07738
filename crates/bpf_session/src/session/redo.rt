//! `redo`: moves that were taken back are made again.
ghost use Rattle.std.specs.Prelude.{◌≡◌, ◌≢◌, ◌≤◌, ◌==◌, Ok, Err, if◌then◌else◌, length};
ghost use Rattle.bpf_journal.specs.Tracks.{Track};
ghost use Rattle.bpf_session.specs.Redo.{MakesSteps, cut_again, redo as redo_of};
ghost use Rattle.bpf_session.specs.Sessions.{HasPast, Obeys};

use super::Session;
use crate::reply::Reply;
use bpf_journal::Keeper;
use bpfdb_script::{Count, Refusal, Why};

/// The most steps that are made again at once.
const LONGEST: u64 = 63;

/// How many of them pay.
const WORTHWHILE: u64 = 8;

impl<K: Keeper> Session<K> {
    /// Makes so many moves again that were taken back, the next one first, or all of them where
    /// there are fewer. It stops at no breakpoint and no watch. Q15 where the keeper refuses the
    /// first one.
    pub(super) fn redo(&mut self, count: Count) -> Result<Reply, Refusal>
        ensures { Obeys K.holds K.refused K.room self.old self.new (λ gap. redo_of gap count)
            result }
    {
        let ahead = self.timeline.ahead() as u64;
        if count.get() <= ahead {
            self.go_on(count.get(), Why::Done)
        } else {
            self.go_on(ahead, Why::All)
        }
    }

    /// Makes so many moves again, of which there are no fewer.
    fn go_on(&mut self, moves: u64, why: Why) -> Result<Reply, Refusal>
        requires told { why ≢ Why.Memory }
        requires there { (h : Track) → HasPast K.holds self.old h → moves ≤ length h.ahead }
        ensures { Obeys K.holds K.refused K.room self.old self.new (λ gap. cut_again gap moves why)
            result }
    {
        let mut made = 0;
        let mut pace = Pace { pause: 0, left: 0 };
        while made < moves {
            let steps = self.redo_at_once(moves - made, &mut pace);
            if steps > 0 {
                made += steps;
                continue;
            }
            match self.timeline.redo() {
                Ok(_) => made += 1,
                Err(_) => return cut_short(made),
            }
        }
        Ok(Reply::Redone { moves, why })
    }

    /// Makes steps again that come next, many at once, at most so many, where the pace lets it try.
    /// Answers how many, maybe none.
    fn redo_at_once(&mut self, most: u64, pace: &mut Pace) -> u64
        ensures { MakesSteps K.holds K.refused K.room most result self.old self.new }
    {
        if pace.left > 0 {
            pace.left -= 1;
            return 0;
        }
        let steps = self
            .timeline
            .redo_steps(most.min(LONGEST), self.breaks.table());
        pace.turn(steps);
        steps
    }
}

/// How many moves are made again one by one before steps are tried at once: behind short stretches
/// twice as many each time, so that where rare steps come often little is tried for nothing.
#[derive(Clone, Copy)]
struct Pace {
    pause: u64,
    left: u64,
}

impl Pace {
    /// Goes on behind a stretch of so many steps.
    fn turn(&mut self, steps: u64) {
        self.pause = if steps >= WORTHWHILE {
            0
        } else if self.pause < 128 {
            2 * self.pause + 1
        } else {
            256
        };
        self.left = self.pause;
    }
}

/// The answer where the keeper refused the move after so many that were made again.
fn cut_short(made: u64) -> Result<Reply, Refusal>
    ensures { result ≡ (if made == 0 then Err Refusal.OutOfMemory else Ok
        (Reply.Redone made Why.Memory)) }
{
    if made == 0 {
        Err(Refusal::OutOfMemory)
    } else {
        Ok(Reply::Redone {
            moves: made,
            why: Why::Memory,
        })
    }
}
