//! Map layout: where the bytes of each map stand among those of all maps.
ghost use Rattle.std.specs.Prelude.{◌≡◌, ◌≤◌, ◌+◌, ◌*◌, [], ◌∷◌, ◌++◌, ◌<◌, IfSome, IfNone, length, slice_get, Some};
ghost use Rattle.bpf_isa.specs.Maps.{AreMaps};
ghost use Rattle.bpf_steps.specs.Regions.{index_in, maps_from, maps_len};

use crate::memory::region_index;
use crate::platform::{MAP_BASE, MAP_STRIDE};
use arrayvec::ArrayVec;
use bpf_isa::{MapShape, MapTable};
use std::marker::Model;

/// A map's shape, the index of its first byte among the bytes of all maps, and how many bytes it
/// has.
#[derive(Clone, Copy, Default)]
pub struct MapSpan {
    pub shape: MapShape,
    pub first: u32,
    pub len: u32,
}

/// Where the bytes of a program's maps stand, side by side. There are at most 16 maps.
#[derive(Drop)]
pub struct MapLayout {
    spans: ArrayVec<MapSpan, 16>,
    /// How many bytes all maps have.
    len: u32,
}

impl Model for MapLayout {
    ghost use Rattle.std.specs.Prelude.{◌≡◌, List};
    ghost use Rattle.bpf_isa.specs.declared.maps.MapShape.{MapShape};
    ghost use Rattle.bpf_isa.specs.Maps.{AreMaps};
    ghost use Rattle.bpf_steps.specs.Regions.{maps_len};
    ghost use Rattle.bpf_steps.specs.Spans.{shapes_of, AreLaid};

    ghost Value = { List MapShape };

    ghost view = { λ m. shapes_of m.spans.items };

    ghost invariant = { λ m. record {
      tables : AreMaps (shapes_of m.spans.items);
      laid : AreLaid 0 m.spans.items;
      whole : m.len ≡ maps_len (shapes_of m.spans.items);
    } };
}

impl MapLayout {
    /// The layout of the maps of a table.
    pub fn of(maps: &MapTable) -> MapLayout
        ensures { result ≡ maps.now }
    {
        let mut layout = MapLayout::empty();
        for map in 0..maps.len() {
            layout.add(shape_of(maps, map));
        }
        layout
    }

    /// How many bytes all maps have.
    pub fn len(&self) -> usize
        ensures value { result ≡ maps_len self.now }
        ensures fits { result ≤ 16 * 65536 }
        ensures tables { AreMaps self.now }
    {
        self.len as usize
    }

    /// Where the run of n bytes at an address from map 0 on begins among the bytes of all maps.
    pub fn index(&self, address: u64, n: usize) -> Option<usize>
        requires { MAP_BASE ≤ address }
        ensures value { result ≡ index_in (maps_from 0 self.now) address n }
        ensures fits { IfSome result (λ at. at + n ≤ maps_len self.now) }
        ensures few { maps_len self.now ≤ 16 * 65536 }
    {
        let map = (address - MAP_BASE) / MAP_STRIDE;
        match span_of(self.spans.as_slice(), map) {
            Some(span) => index_at(span, (address - MAP_BASE) % MAP_STRIDE, n),
            None => None,
        }
    }

    /// The layout of no map.
    fn empty() -> MapLayout
        ensures { result ≡ [] }
    {
        MapLayout {
            spans: ArrayVec::new(),
            len: 0,
        }
    }

    /// Puts a map's bytes behind those of the others.
    fn add(&mut self, shape: MapShape)
        requires { AreMaps (self.old ++ shape ∷ []) }
        ensures { self.new ≡ self.old ++ shape ∷ [] }
    {
        let len = shape.value_size * shape.entries;
        self.spans.push(MapSpan {
            shape,
            first: self.len,
            len,
        });
        self.len += len;
    }
}

/// The shape of a map of a table.
fn shape_of(maps: &MapTable, map: usize) -> MapShape
    requires { map < length maps.now }
    ensures { Some result ≡ slice_get maps.now map }
{
    match maps.shape(map) {
        Some(shape) => shape,
        None => unreachable!(),
    }
}

/// The span of a map, None past the last.
fn span_of(spans: &[MapSpan], map: u64) -> Option<MapSpan>
    ensures { result ≡ slice_get spans.now map }
{
    spans.get(map as usize).copied()
}

/// Where the run of n bytes from a byte of a map on begins among the bytes of all maps.
fn index_at(span: MapSpan, byte: u64, n: usize) -> Option<usize>
    ensures found { IfSome result (λ at. (at ≡ span.first + byte) × (byte + n ≤ span.len)) }
    ensures none { IfNone result (span.len < byte + n) }
{
    match region_index(0, span.len as usize, byte, n) {
        Some(at) => Some(span.first as usize + at),
        None => None,
    }
}
