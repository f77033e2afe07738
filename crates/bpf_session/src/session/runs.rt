//! Runs of bytes that are watched together, and what is seen of the watched bytes.
ghost use Rattle.std.specs.Prelude.{◌≡◌};
ghost use Rattle.bpf_session.specs.WatchRuns.{SetsWatches, seen_at, with_run, without_run};

use super::Session;
use crate::watches::{Run, Sight};
use bpf_journal::Keeper;
use bpfdb_script::Refusal;

impl<K: Keeper> Session<K> {
    /// Watches the bytes of a run. Q6 where some of them aren't present, Q10 where there isn't room
    /// for all of them, Q11 where some of them are watched. A refused run leaves all as it was.
    pub fn watch(&mut self, run: &Run) -> Result<(), Refusal>
        ensures { SetsWatches self.old self.new
            (with_run run.now self.old.watches self.old.moment.state) result }
    {
        if !run.is_present(self.cpu()) {
            return Err(Refusal::AddressNotPresent);
        }
        if !self.watches.has_room(run) {
            return Err(Refusal::TableFull);
        }
        if self.watches.has_some(run) {
            return Err(Refusal::ThereOrNot);
        }
        self.watches.set_all(run);
        Ok(())
    }

    /// No longer watches the bytes of a run. Q11 where some of them aren't watched, and then all
    /// stays as it was.
    pub fn unwatch(&mut self, run: &Run) -> Result<(), Refusal>
        ensures { SetsWatches self.old self.new (without_run run.now self.old.watches) result }
    {
        if !self.watches.has_all(run) {
            return Err(Refusal::ThereOrNot);
        }
        self.watches.remove_all(run);
        Ok(())
    }

    /// What is seen of the watched bytes now.
    pub fn sight(&self) -> Sight
        ensures { result ≡ seen_at self.now.watches self.now.moment.state }
    {
        self.watches.sight(self.cpu())
    }
}
