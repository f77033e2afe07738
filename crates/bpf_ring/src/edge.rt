//! A ring whose oldest bytes may be the rest of an entry.
ghost use Rattle.std.specs.Prelude.{◌≡◌, ◌≤◌, ◌+◌, ◌-◌, List, length, drop};
ghost use Rattle.bpf_entries.specs.Keeping.{Kept};
ghost use Rattle.bpf_ring.specs.Edges.{HoldsAs, IsBehind, IsRagged, MakesWay};
ghost use Rattle.bpf_ring.specs.Held.{RingHolds};

use crate::keeper::RingKeeper;

/// Where the oldest whole entry of a ragged ring begins.
#[derive(Clone, Copy)]
pub(crate) struct Edge {
    /// How many bytes stand in front of it.
    place: usize,
    /// How many entries there are from it on.
    entries: usize,
}

impl RingKeeper {
    /// Whether a ring is ragged from now on, as it was or because a run has taken so many steps: as
    /// many as the ring has entries. So the walk that finds the edge costs less than they did.
    pub(crate) fn gets_ragged(&self, was: bool, steps: u64) -> bool
        ensures { (ks : List Kept) → HoldsAs was self.now ks → HoldsAs result self.now ks }
    {
        if was {
            return true;
        }
        self.invariant();
        if !self.counts.are_plain() {
            return false;
        }
        if steps < self.counts.entries as u64 {
            return false;
        }
        true
    }

    /// Lets oldest bytes go until there is room for so many.
    pub(crate) fn make_way(&mut self, room: usize)
        requires { room ≤ self.old.ring.size }
        ensures { MakesWay self.old self.new room }
    {
        let len = self.ring.len();
        let most = self.ring.size() - room;
        if len > most {
            self.ring.drop_oldest(len - most);
        }
    }

    /// Lets the oldest bytes of a ragged ring go that are no whole entry.
    pub(crate) fn trim(&mut self)
        ensures size { self.new.ring.size ≡ self.old.ring.size }
        ensures held { (ks : List Kept) → IsRagged self.old.ring self.old.counts ks →
            RingHolds self.new ks }
    {
        let edge = self.edge();
        self.ring.drop_oldest(edge.place);
        self.counts = self.counts.with_entries(edge.entries);
    }

    /// Where the oldest whole entry of a ragged ring begins.
    fn edge(&self) -> Edge
        ensures within { result.place ≤ length self.now.ring.bytes }
        ensures behind { (ks : List Kept) → IsRagged self.now.ring self.now.counts ks →
            IsBehind self.now.ring result ks }
    {
        let mut place = self.ring.len();
        let mut entries = 0;
        while place >= 5 {
            let count = self.ring.len_before(place);
            if count < 1 || count > place {
                return Edge { place, entries };
            }
            place -= count;
            entries += 1;
        }
        Edge { place, entries }
    }
}
