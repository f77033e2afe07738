//! A plan whose maps have numbers.
ghost use Rattle.std.specs.Prelude.{◌≡◌, ◌≤◌, ◌+◌, length};
ghost use Rattle.bpf_isa.specs.Maps.{most_maps};
ghost use Rattle.bpf_link.specs.Data.{AllBelow};

use crate::plan::Plan;
use std::marker::Model;

/// A plan, where its own maps stand in their section, and the sections of data that become maps
/// after those. Contracts see the three.
#[derive(Drop)]
pub struct Placed<'p, 'a> {
    pub plan: &'p Plan<'a>,
    pub maps: &'p [u64],
    pub taken: &'p [usize],
}

impl<'p, 'a> Model for Placed<'p, 'a> {
    ghost use Rattle.bpf_link.specs.Data.{HasMaps, Numbered};

    ghost Value = { Numbered };

    ghost view = { λ p. record { plan = p.plan.now; maps = p.maps.now; taken = p.taken.now } };

    ghost invariant = { λ p. HasMaps (record { plan = p.plan.now; maps = p.maps.now; taken = p.taken.now }) };
}

impl<'p, 'a> Placed<'p, 'a> {
    /// What the program is put together from.
    pub fn plan(&self) -> &'p Plan<'a>
        ensures { result.now ≡ self.now.plan }
    {
        self.plan
    }

    /// Where the plan's own maps stand in their section.
    pub fn maps(&self) -> &'p [u64]
        ensures value { result.now ≡ self.now.maps }
        ensures few { length self.now.maps + length self.now.taken ≤ most_maps }
    {
        self.maps
    }

    /// The sections of data that become maps.
    pub fn taken(&self) -> &'p [usize]
        ensures value { result.now ≡ self.now.taken }
        ensures below { AllBelow (length self.now.plan.object.sections) self.now.taken }
    {
        self.taken
    }
}
