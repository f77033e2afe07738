//! The wanted places.
ghost use Rattle.std.specs.Prelude.{◌≡◌, ◌≤◌, ◌↔◌, [], false, length, take, IfOk, IsTrue};
ghost use Rattle.std.specs.List.{list_any};
ghost use Rattle.bpf_origin.specs.declared.place.Part.TheVariants as part;
ghost use Rattle.bpf_origin.specs.Places.{bytes_from, has as has_place, places_of};
ghost use Rattle.bpf_origin.specs.Wanted as spec;

use crate::marks::{Marks, byte_mark, mark_of};
use crate::place::{Part, Place};
use crate::writes::{has, is_among, is_same};
use std::alloc::{AllocError, Global};
use std::marker::Model;

/// The most places that are wanted at one time.
pub const MOST_PLACES: usize = 4096;

/// Places, in the order in which they came to be wanted, no two alike. There is memory for all that
/// are wanted at one time from the beginning.
#[derive(Drop)]
pub struct Wanted {
    places: Vec<Place>,
    /// Each of the places is marked. So of one that isn't is told at once that it isn't wanted.
    marks: Marks,
}

impl Model for Wanted {
    ghost use Rattle.std.specs.Prelude.{◌≤◌, List, length};
    ghost use Rattle.std.specs.Vec.{vec_capacity};
    ghost use Rattle.bpf_origin.specs.declared.place.Place.{Place};
    ghost use Rattle.bpf_origin.specs.Marks.{AreMarked};
    ghost use Rattle.bpf_origin.specs.Wanted.{most_places};

    ghost Value = { List Place };

    ghost view = { λ w. w.places.items };

    ghost invariant = { λ w. record {
      room : most_places ≤ vec_capacity w.places;
      few : length w.places.items ≤ most_places;
      marked : AreMarked w.marks w.places.items;
    } };
}

impl Wanted {
    /// None, with memory for as many as are wanted at one time.
    pub fn new(alloc: Global) -> Result<Wanted, AllocError>
        ensures { IfOk result (λ wanted. wanted ≡ []) }
    {
        let places = match Vec::with_capacity(alloc, MOST_PLACES) {
            Ok(places) => places,
            Err(error) => return Err(error),
        };
        match Marks::new(alloc) {
            Ok(marks) => Ok(Wanted { places, marks }),
            Err(error) => Err(error),
        }
    }

    /// None is wanted any more.
    pub fn clear(&mut self)
        ensures { self.new ≡ [] }
    {
        self.marks.unmark(self.places.as_slice());
        self.places.clear();
    }

    /// The places.
    pub fn as_slice(&self) -> &[Place]
        ensures value { result.now ≡ self.now }
        ensures fits { length result.now ≤ spec.most_places }
    {
        self.places.as_slice()
    }

    /// Whether a place is wanted.
    fn is_in(&self, place: Place) -> bool
        ensures { result ≡ spec.is_in place self.now }
    {
        self.marks.has(mark_of(place)) && self.places.iter().any(|other| is_same(place, *other))
    }

    /// Whether one of a part's places is wanted. Where none of them is, that takes no longer the more
    /// places are wanted.
    pub fn is_hit(&self, part: Part) -> bool
        ensures { result ≡ list_any (has_place part) self.now }
    {
        self.may_hold(part) && self.places.iter().any(|place| has(part, *place))
    }

    /// Whether one of a part's places may be wanted, by the marks of all or, where fewer are
    /// wanted than it has, by those.
    fn may_hold(&self, part: Part) -> bool
        ensures { result ≡ false → list_any (has_place part) self.now ≡ false }
    {
        match part {
            Part::Register { depth, number } => {
                self.marks.has(mark_of(Place::Register { depth, number }))
            }
            Part::Word { index } => self.marks.has(mark_of(Place::Word { index })),
            Part::Bytes { address, len } => {
                self.places.len() < len || self.is_run_marked(address, len)
            }
        }
    }

    /// Whether one of the bytes is marked, so many from an address on.
    fn is_run_marked(&self, address: u64, len: usize) -> bool
        ensures { result ≡ false →
            list_any (has_place (part.Bytes address len)) self.now ≡ false }
    {
        for k in 0..len {
            if self.marks.has(byte_mark(address.wrapping_add(k as u64))) {
                return true;
            }
        }
        false
    }

    /// Whether a move that wrote these parts wrote a wanted place.
    pub fn are_hit(&self, parts: &[Part]) -> bool
        ensures { result ≡ spec.are_hit parts.now self.now }
    {
        parts.iter().any(|part| self.is_hit(*part))
    }

    /// One more place is wanted, where there is room for it; else nothing changes. Answers whether
    /// it is wanted.
    pub fn want(&mut self, place: Place) -> bool
        ensures value { self.new ≡ take spec.most_places (spec.want self.old place) }
        ensures all { IsTrue result ↔ (length (spec.want self.old place) ≤ spec.most_places) }
    {
        let _places = self.as_slice();
        if self.is_in(place) {
            return true;
        }
        if self.places.len() == MOST_PLACES {
            return false;
        }
        self.marks.set(mark_of(place));
        self.places.push_reserved(place);
        true
    }

    /// The places of a part are wanted, one after another, as many as there is room for. Answers
    /// whether all are.
    pub fn want_part(&mut self, part: Part) -> bool
        ensures value { self.new ≡ take spec.most_places (spec.want_all self.old (places_of part)) }
        ensures all { IsTrue result
            ↔ (length (spec.want_all self.old (places_of part)) ≤ spec.most_places) }
    {
        match part {
            Part::Register { depth, number } => self.want(Place::Register { depth, number }),
            Part::Word { index } => self.want(Place::Word { index }),
            Part::Bytes { address, len } => self.want_run(address, len),
        }
    }

    /// Bytes are wanted, so many from an address on, as `want_part` says.
    fn want_run(&mut self, address: u64, len: usize) -> bool
        ensures value { self.new
            ≡ take spec.most_places (spec.want_all self.old (bytes_from address len)) }
        ensures all { IsTrue result
            ↔ (length (spec.want_all self.old (bytes_from address len)) ≤ spec.most_places) }
    {
        for k in 0..len {
            let at = address.wrapping_add(k as u64);
            if !self.want(Place::Byte { address: at }) {
                return false;
            }
        }
        let _places = self.as_slice();
        true
    }

    /// The places of parts are wanted, as `want_part` says.
    pub fn want_parts(&mut self, parts: &[Part]) -> bool
        ensures value { self.new ≡ take spec.most_places (spec.want_parts self.old parts.now) }
        ensures all { IsTrue result
            ↔ (length (spec.want_parts self.old parts.now) ≤ spec.most_places) }
    {
        for part in parts {
            if !self.want_part(*part) {
                return false;
            }
        }
        let _places = self.as_slice();
        true
    }

    /// The places among these parts are no longer wanted.
    pub fn spare(&mut self, parts: &[Part])
        ensures { self.new ≡ spec.spared parts.now self.old }
    {
        if !self.are_hit(parts) {
            return;
        }
        self.marks.unmark(self.places.as_slice());
        self.places.retain(|place| !is_among(parts, *place));
        self.marks.mark(self.places.as_slice());
    }

    /// Before a call r6 to r9 of the function that it begins are wanted of the caller.
    pub fn carry(&mut self, depth: usize)
        ensures { self.new ≡ spec.handed depth 9 (spec.handed depth 8 (spec.handed depth 7
            (spec.handed depth 6 self.old))) }
    {
        self.hand(depth, 6);
        self.hand(depth, 7);
        self.hand(depth, 8);
        self.hand(depth, 9);
    }

    /// A register of the function at a depth, if it is wanted, is wanted of its caller.
    fn hand(&mut self, depth: usize, number: u8)
        ensures { self.new ≡ spec.handed depth number self.old }
    {
        let own = Place::Register { depth, number };
        if !self.is_in(own) {
            return;
        }
        let _places = self.as_slice();
        self.marks.unmark(self.places.as_slice());
        self.places.retain(|place| !is_same(own, *place));
        self.marks.mark(self.places.as_slice());
        let _there = self.want(Place::Register {
            depth: depth.saturating_sub(1),
            number,
        });
    }
}
