//! Edits of the machine.
ghost use Rattle.bpf_machine.specs.Edits.{IsEditable};
ghost use Rattle.bpf_session.specs.Sessions.{Obeys};
ghost use Rattle.bpf_session.specs.Tables.{edit as edit_of};

use super::Session;
use crate::reply::Reply;
use bpf_journal::{Keeper, TimelineFault};
use bpf_machine::Edit;
use bpfdb_script::Refusal;

impl<K: Keeper> Session<K> {
    /// Makes an edit, a marked move. Q15 where the keeper can't keep it.
    pub(super) fn edit(&mut self, edit: &Edit) -> Result<Reply, Refusal>
        requires { IsEditable self.old.moment.state edit.now }
        ensures { Obeys K.holds K.refused K.room self.old self.new
            (λ gap. edit_of gap (K.room self.old.moment.keeper) edit.now) result }
    {
        match self.timeline.edit(edit, true) {
            Ok(()) => Ok(Reply::Ok),
            Err(TimelineFault::OutOfMemory) => Err(Refusal::OutOfMemory),
            Err(TimelineFault::Move(_)) => unreachable!(),
        }
    }
}
