//! The relocations of fields (CO-RE) of the code that comes out.
ghost use Rattle.std.specs.Prelude.{◌≡◌, ◌≤◌, ◌<◌, ◌+◌, ◌/◌, ◌==◌, ◌⊎◌, true, IfOk, IfErr, Ok, length};
ghost use Rattle.bpf_link.specs.FieldRelocations.{AreLeft, CountedFields, HasFields, HasCountFault, HasExtFault, IsCountFault, IsFieldsFault, ListedFields, PartFields, PlanFields, both_fields, ext_bytes, ext_found, fields_at, part_name, short_name};
ghost use Rattle.bpf_link.specs.Links.{planned};
ghost use Rattle.bpf_link.specs.MapTypes.{is_something};
ghost use Rattle.bpf_link.specs.Parts.{part_of, slots_in};
ghost use Rattle.bpf_link.specs.Sections.{FoundBelow};
ghost use Rattle.bpf_isa.specs.Checker.{most_slots};

use crate::fault::LinkFault;
use crate::linker::planned;
use crate::map_types::{
    found_named, is_something, name_from, told_of_types, types_bytes, types_in,
};
use crate::parts::{Part, Side};
use crate::plan::{Plan, part_place};
use crate::sections::Found;
use bpf_btf::{Btf, CoreRelocations};
use std::alloc::Global;

/// How many relocations of fields the code of a program has.
#[derive(Clone, Copy)]
pub struct FieldRelocations {
    /// How many there are; 2^32 - 1 stands for more, too.
    pub count: u32,
    /// The slot of the first one in the program that would come out.
    pub slot: usize,
    /// Where the name of its section stands in the file.
    pub at: usize,
}

const NO_FIELDS: FieldRelocations = FieldRelocations {
    count: 0,
    slot: 0,
    at: 0,
};

/// The section that lists relocations of fields.
pub fn ext_found(plan: &Plan<'_>) -> Found
    ensures value { result ≡ ext_found plan.now }
    ensures within { FoundBelow (length plan.now.object.sections) result }
{
    found_named(&plan.object, b".BTF.ext")
}

/// A place at which at most 255 bytes of a name stand, as it is; in place of another the file's end,
/// where no name stands. So a name is compared with each block of a list in a moment.
pub fn short_name(bytes: &[u8], at: usize) -> usize
    requires { at ≤ length bytes.now }
    ensures value { result ≡ short_name bytes.now at }
    ensures inside { result ≤ length bytes.now }
{
    if name_from(bytes, at).len() > 255 {
        return bytes.len();
    }
    at
}

/// Where the name of a part's section stands in the file.
fn part_name(plan: &Plan<'_>, part: &Part<'_>) -> usize
    ensures value { result ≡ part_name plan.now part.now }
    ensures inside { result ≤ length plan.now.object.bytes }
{
    short_name(plan.object.bytes(), part_place(plan, part))
}

/// Relocations of a part, by those of its section.
fn fields_at(first: usize, at: usize, sum: CoreRelocations) -> FieldRelocations
    requires { first ≤ most_slots }
    ensures { result ≡ fields_at first at sum }
{
    FieldRelocations {
        count: sum.count,
        slot: first + sum.first as usize / 8,
        at,
    }
}

/// The relocations that are listed for a part.
fn listed_fields(
    plan: &Plan<'_>,
    types: &Btf<'_>,
    ext: &[u8],
    side: Side,
) -> Result<FieldRelocations, LinkFault>
    requires { ext.now ≡ ext_bytes plan.now }
    ensures ok { IfOk result (ListedFields plan.now types.now.strings side) }
    ensures err { IfErr result (HasExtFault plan.now) }
{
    let at = part_name(plan, plan.parts.part(side));
    match types.core_relocations(ext, name_from(plan.object.bytes(), at)) {
        Ok(sum) => Ok(fields_at(plan.parts.first(side), at, sum)),
        Err(fault) => Err(LinkFault::Types(fault)),
    }
}

/// The relocations of a part.
fn part_fields(
    plan: &Plan<'_>,
    types: &Btf<'_>,
    ext: &[u8],
    side: Side,
) -> Result<FieldRelocations, LinkFault>
    requires { ext.now ≡ ext_bytes plan.now }
    ensures ok { IfOk result (PartFields (slots_in (part_of plan.now.parts side) == 0)
        plan.now types.now.strings side) }
    ensures err { IfErr result (HasExtFault plan.now) }
{
    if plan.parts.part(side).len() == 0 {
        return Ok(NO_FIELDS);
    }
    listed_fields(plan, types, ext, side)
}

/// The relocations of both parts.
fn both_fields(code: FieldRelocations, text: FieldRelocations) -> FieldRelocations
    ensures { result ≡ both_fields code text }
{
    if code.count == 0 {
        return text;
    }
    FieldRelocations {
        count: code.count.saturating_add(text.count),
        slot: code.slot,
        at: code.at,
    }
}

/// The relocations that BTF lists of the code that comes out.
fn counted_fields(alloc: Global, plan: &Plan<'_>, ext: &[u8]) -> Result<FieldRelocations, LinkFault>
    requires { ext.now ≡ ext_bytes plan.now }
    ensures ok { IfOk result (CountedFields plan.now) }
    ensures err { IfErr result (IsCountFault plan.now) }
{
    let types = match Btf::read(alloc, types_in(&plan.object)) {
        Ok(types) => types,
        Err(fault) => return Err(told_of_types(fault)),
    };
    let code = match part_fields(plan, &types, ext, Side::Code) {
        Ok(code) => code,
        Err(fault) => return Err(fault),
    };
    match part_fields(plan, &types, ext, Side::Text) {
        Ok(text) => Ok(both_fields(code, text)),
        Err(fault) => Err(fault),
    }
}

/// The relocations of fields of a plan.
fn plan_fields(alloc: Global, plan: &Plan<'_>) -> Result<FieldRelocations, LinkFault>
    ensures ok { IfOk result
        (PlanFields (is_something (ext_found plan.now)) plan.now) }
    ensures listed { IfErr result (λ fault. is_something (ext_found plan.now) ≡ true) }
    ensures err { IfErr result (IsCountFault plan.now) }
{
    let found = ext_found(plan);
    if !is_something(found) {
        return Ok(NO_FIELDS);
    }
    counted_fields(alloc, plan, types_bytes(&plan.object, found))
}

/// The relocations of fields of the code that comes out for a section.
fn fields_of(alloc: Global, object: &[u8], name: &[u8]) -> Result<FieldRelocations, LinkFault>
    ensures ok { IfOk result (HasFields object.now name.now) }
    ensures err { IfErr result (λ fault. (planned object.now name.now ≡ Err fault)
        ⊎ HasCountFault object.now name.now fault) }
{
    let plan = match planned(object, name) {
        Ok(plan) => plan,
        Err(fault) => return Err(fault),
    };
    match plan_fields(alloc, &plan) {
        Ok(fields) => Ok(fields),
        Err(fault) => Err(fault),
    }
}

/// How many relocations of fields (CO-RE) are left undone in the words of a code section.
///
/// `link_with` does none of them: its words have the fields where the headers had them with which
/// the object was compiled. So they are refused here unless `as_compiled` says that this is meant.
/// `section` is named as for `link_with`. An object without `.BTF.ext` has none; of one that has it,
/// `.BTF` and `.BTF.ext` are read. A section whose name has more than 255 bytes is taken to have
/// none. Takes time in proportion to the length of the object.
pub fn fields_as_compiled(
    alloc: Global,
    object: &[u8],
    section: &[u8],
    as_compiled: bool,
) -> Result<u32, LinkFault>
    ensures ok { IfOk result (AreLeft object.now section.now as_compiled) }
    ensures err { IfErr result (IsFieldsFault object.now section.now as_compiled) }
{
    let fields = match fields_of(alloc, object, section) {
        Ok(fields) => fields,
        Err(fault) => return Err(fault),
    };
    if fields.count == 0 {
        return Ok(0);
    }
    if as_compiled {
        return Ok(fields.count);
    }
    Err(LinkFault::Fields {
        count: fields.count,
        slot: fields.slot,
        at: fields.at,
    })
}
