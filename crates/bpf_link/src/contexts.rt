//! Programs that the kernel gives a packet by a struct of its own.
ghost use Rattle.std.specs.Prelude.{◌≡◌, ◌≤◌, ◌<◌, ◌⊎◌, true, IfOk, IfErr, OnOk, Ok, None, length};
ghost use Rattle.bpf_link.specs.Contexts.{HasContext, IsContextFault, IsUnknownContext, PlanContext, ReadContext, entry_place, found_place, packet_in};
ghost use Rattle.bpf_link.specs.FieldRelocations.{ext_found};
ghost use Rattle.bpf_link.specs.Links.{planned};
ghost use Rattle.bpf_link.specs.MapTypes.{is_something};
ghost use Rattle.bpf_link.specs.Refusals.{HasReadFault};
ghost use Rattle.bpf_link.specs.Sections.{FoundBelow};
ghost use Rattle.bpf_link.specs.declared.fault.LinkFault.TheVariants.{Memory};

use crate::entry::entry_found;
use crate::fault::LinkFault;
use crate::field_relocations::{ext_found, short_name};
use crate::linker::planned;
use crate::map_types::{is_something, name_from, told_of_types, types_in};
use crate::plan::{Plan, symbol_place};
use crate::sections::Found;
use bpf_btf::Btf;
use bpf_packet::Packet;
use std::alloc::Global;

/// Where the name of a symbol that was found stands in the file.
fn found_place(plan: &Plan<'_>, found: Found) -> usize
    requires { FoundBelow (length plan.now.symbols) found }
    ensures value { result ≡ found_place plan.now found }
    ensures inside { result ≤ length plan.now.object.bytes }
{
    let bytes = plan.object.bytes();
    match found {
        Found::Only(i) => short_name(bytes, symbol_place(plan, &plan.symbols.at(i))),
        Found::Nothing => bytes.len(),
        Found::Several => bytes.len(),
    }
}

/// Where the name of the entry stands in the file; the file's end where it has none.
fn entry_place(plan: &Plan<'_>, entry: &[u8]) -> usize
    ensures value { result ≡ entry_place plan.now entry.now }
    ensures inside { result ≤ length plan.now.object.bytes }
{
    found_place(plan, entry_found(plan, entry))
}

/// Which of the kernel's own structs of a packet the function of a name takes, if it takes one.
fn packet_in(types: &Btf<'_>, name: &[u8]) -> Option<Packet>
    ensures { result ≡ packet_in types.now name.now }
{
    if types.takes(b"xdp_md", name) {
        Some(Packet::Xdp)
    } else if types.takes(b"__sk_buff", name) {
        Some(Packet::Tc)
    } else {
        None
    }
}

/// Which of them BTF says that the entry takes.
fn read_context(alloc: Global, plan: &Plan<'_>, entry: &[u8]) -> Result<Option<Packet>, LinkFault>
    ensures ok { IfOk result (ReadContext plan.now entry.now) }
    ensures err { IfErr result (λ fault. (fault ≡ Memory) ⊎ HasReadFault plan.now fault) }
{
    let types = match Btf::read(alloc, types_in(&plan.object)) {
        Ok(types) => types,
        Err(fault) => return Err(told_of_types(fault)),
    };
    let name = name_from(plan.object.bytes(), entry_place(plan, entry));
    Ok(packet_in(&types, name))
}

/// Which of them the entry of a plan takes.
fn plan_context(alloc: Global, plan: &Plan<'_>, entry: &[u8]) -> Result<Option<Packet>, LinkFault>
    ensures ok { IfOk result (PlanContext (is_something (ext_found plan.now)) plan.now entry.now) }
    ensures listed { IfErr result (λ fault. is_something (ext_found plan.now) ≡ true) }
    ensures err { IfErr result (λ fault. (fault ≡ Memory) ⊎ HasReadFault plan.now fault) }
{
    if !is_something(ext_found(plan)) {
        return Ok(None);
    }
    read_context(alloc, plan, entry)
}

/// Which of the kernel's own structs of a packet the entry of a section takes, by the object's BTF;
/// none where that says nothing of one. Where nothing is known of it, `link_with` refuses the object,
/// too.
///
/// Takes time in proportion to the length of the object.
pub fn packet_of(
    alloc: Global,
    object: &[u8],
    section: &[u8],
    entry: &[u8],
) -> Result<Option<Packet>, LinkFault>
    ensures ok { IfOk result (HasContext object.now section.now entry.now) }
    ensures err { IfErr result (IsUnknownContext object.now section.now) }
{
    let plan = match planned(object, section) {
        Ok(plan) => plan,
        Err(fault) => return Err(fault),
    };
    plan_context(alloc, &plan, entry)
}

/// Refuses an entry that takes the kernel's own struct of a packet.
///
/// The machine's context is the packet itself, and no pointer of 32 bits leads to it: such a program
/// would take the packet's first bytes for addresses. Takes time in proportion to the length of the
/// object.
pub fn own_context(
    alloc: Global,
    object: &[u8],
    section: &[u8],
    entry: &[u8],
) -> Result<(), LinkFault>
    ensures ok { OnOk result (HasContext object.now section.now entry.now None) }
    ensures err { IfErr result (IsContextFault object.now section.now entry.now) }
{
    let plan = match planned(object, section) {
        Ok(plan) => plan,
        Err(fault) => return Err(fault),
    };
    match plan_context(alloc, &plan, entry) {
        Ok(Some(_)) => Err(LinkFault::Context {
            at: entry_place(&plan, entry),
        }),
        Ok(None) => Ok(()),
        Err(fault) => Err(fault),
    }
}
