//! The records of an object's own maps.
ghost use Rattle.std.specs.Prelude.{IfErr, IfOk};
ghost use Rattle.bpf_join.specs.OwnRecords.{AreOwnRecords, IsOwnRecordFault};

use crate::joined::has_types;
use crate::records::{places_of, records_of};
use bpf_link::{LinkFault, planned};
use std::alloc::Global;

/// The records of the maps that the symbols of an object name, whose section is named as for `link_with`:
/// 64 bytes each, of which the first 4 are the map's kind.
///
/// Takes time in proportion to the length of the object for each map.
pub fn own_records(alloc: Global, object: &[u8], section: &[u8]) -> Result<Vec<u8>, LinkFault>
    ensures ok { IfOk result (λ records. AreOwnRecords object.now section.now records.items) }
    ensures err { IfErr result (IsOwnRecordFault object.now section.now) }
{
    let plan = match planned(object, section) {
        Ok(plan) => plan,
        Err(fault) => return Err(fault),
    };
    let places = match places_of(alloc, &plan, true) {
        Ok(places) => places,
        Err(fault) => return Err(fault),
    };
    let has_types = has_types(&plan, places.as_slice());
    match records_of(alloc, &plan, has_types, places.as_slice()) {
        Ok(records) => Ok(records),
        Err(fault) => Err(fault),
    }
}
