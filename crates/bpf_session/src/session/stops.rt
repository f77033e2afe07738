//! Breakpoints and watches: where commands stop.
ghost use Rattle.std.specs.Prelude.{Ok};
ghost use Rattle.bpf_session.specs.Accepted.{Accepts};
ghost use Rattle.bpf_session.specs.Outcomes.{replied};
ghost use Rattle.bpf_session.specs.Sessions.{Obeys};
ghost use Rattle.bpf_session.specs.Tables.{with_stop, without_stop};

use super::Session;
use crate::reply::Reply;
use bpf_journal::Keeper;
use bpfdb_script::{Command, Stop};

impl<K: Keeper> Session<K> {
    /// Sets a breakpoint or a watch.
    pub(super) fn add(&mut self, stop: Stop) -> Reply
        requires { Accepts K.holds self.old (Command.Add stop) }
        ensures { Obeys K.holds K.refused K.room self.old self.new
            (λ _ p. replied Reply.Ok (with_stop stop p)) (Ok result) }
    {
        self.invariant();
        match stop {
            Stop::Breakpoint(slot) => {
                self.cpu().program().invariant();
                self.breaks.set(slot as u16);
            }
            Stop::Watch(address) => self.watches.set(address),
        }
        Reply::Ok
    }

    /// Removes a breakpoint or a watch.
    pub(super) fn remove(&mut self, stop: Stop) -> Reply
        ensures { Obeys K.holds K.refused K.room self.old self.new
            (λ _ p. replied Reply.Ok (without_stop stop p)) (Ok result) }
    {
        match stop {
            Stop::Breakpoint(slot) => self.breaks.remove(slot),
            Stop::Watch(address) => self.watches.remove(address),
        }
        Reply::Ok
    }
}
