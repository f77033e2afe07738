//! Breakpoints: the slots at which forward commands stop.
ghost use Rattle.std.specs.Prelude.{◌≡◌, ◌<◌, ◌++◌, ◌∷◌, [], length, filter, not, nat_le, ◌==◌, ◌%◌};
ghost use Rattle.bpf_session.specs.Limits.{most_breaks};
ghost use Rattle.bpf_session.specs.SlotTables.{IsTableOf, has_at};
ghost use Rattle.bpf_session.specs.Stops.{has};

use arrayvec::ArrayVec;
use std::marker::Model;

/// The most breakpoints.
pub const MOST_BREAKS: usize = 64;

/// How many places the table of slots has.
const PLACES: usize = 8_192;

/// At most 64 slots, in order of setting, no two alike. A table tells at once of most slots that
/// they are not among them: each slot has a place in it, by its remainder, and where none of them
/// has that place it is not looked for. Up to slot 8,191 no two slots share a place.
#[derive(Drop)]
pub struct Breakpoints {
    slots: ArrayVec<u16, MOST_BREAKS>,
    table: [bool; PLACES],
}

impl Model for Breakpoints {
    ghost use Rattle.std.specs.Prelude.{ℕ, List};
    ghost use Rattle.bpf_session.specs.SlotTables.{IsTableOf};

    ghost Value = { List ℕ };

    ghost view = { λ b. b.slots.items };

    ghost invariant = { λ b. IsTableOf b.slots.items b.table };
}

impl Breakpoints {
    /// None.
    pub fn new() -> Breakpoints
        ensures { result ≡ [] }
    {
        Breakpoints {
            slots: ArrayVec::new(),
            table: [false; PLACES],
        }
    }

    /// In order of setting.
    pub fn as_slice(&self) -> &[u16]
        ensures { result.now ≡ self.now }
    {
        self.slots.as_slice()
    }

    /// Whether there are as many as there can be.
    pub fn is_full(&self) -> bool
        ensures { result ≡ nat_le most_breaks (length self.now) }
    {
        self.slots.is_full()
    }

    /// The table: of each place whether one of the slots has it.
    #[inline(always)]
    pub(crate) fn table(&self) -> &[bool; PLACES]
        ensures { IsTableOf self.now result.now }
    {
        &self.table
    }

    /// Whether there is one at a slot.
    pub fn has(&self, slot: u16) -> bool
        ensures { result ≡ has self.now slot }
    {
        if self.table[place_of(u64::from(slot))] {
            self.has_slot(u64::from(slot))
        } else {
            false
        }
    }

    /// Whether there is one at a slot, which may be any number, by a look at each of them.
    #[inline(never)]
    pub fn has_slot(&self, slot: u64) -> bool
        ensures { result ≡ has self.now slot }
    {
        self.slots.iter().any(|other| u64::from(*other) == slot)
    }

    /// Sets one at a slot.
    pub fn set(&mut self, slot: u16)
        requires { length self.old < most_breaks }
        ensures { self.new ≡ self.old ++ slot ∷ [] }
    {
        self.slots.push(slot);
        self.table[place_of(u64::from(slot))] = true;
    }

    /// Removes the one at a slot.
    pub fn remove(&mut self, slot: u64)
        ensures { self.new ≡ filter (λ other. not (other == slot)) self.old }
    {
        self.slots.retain(|other| u64::from(*other) != slot);
        let place = place_of(slot);
        self.table[place] = is_taken(self.slots.as_slice(), place);
    }
}

/// The place of a slot in the table.
fn place_of(slot: u64) -> usize
    ensures place { result ≡ slot % 8192 }
    ensures within { result < 8192 }
{
    (slot % PLACES as u64) as usize
}

/// Whether one of some slots has a place in the table.
fn is_taken(slots: &[u16], place: usize) -> bool
    ensures { result ≡ has_at slots.now place }
{
    slots
        .iter()
        .any(|slot| usize::from(*slot) % PLACES == place)
}
