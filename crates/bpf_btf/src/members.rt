//! What the members of a map's definition say.
ghost use Rattle.std.specs.Prelude.{◌≡◌, ◌≤◌, ◌<◌, ◌+◌, ◌*◌, Some, None, IfSome, Ok, Err, if◌then◌else◌};
ghost use Rattle.bpf_btf.specs.Types.{start_of, type_of};
ghost use Rattle.bpf_btf.specs.Maps.{member_at, member_of, pointed, count_of, number_with, number_of, known_size, target_size, size_with, size_at, one_size, size_by};

use crate::fault::BtfFault;
use crate::layout::MemberEntry;
use crate::section::Btf;
use crate::sizes::{resolved, size_of};

/// The place that was found last, with one more.
pub fn latest(found: Option<usize>, is_one: bool, i: usize) -> Option<usize>
    ensures { result ≡ (if is_one then Some i else found) }
{
    if is_one { Some(i) } else { found }
}

/// The index of the last member of a name.
pub fn member_of(btf: &Btf<'_>, definition: usize, name: &[u8]) -> Option<usize>
    ensures value { result ≡ member_of btf.now definition name.now }
    ensures below { IfSome result (λ i. i < 65536) }
{
    let mut found = None;
    let count = btf.type_of(definition).count as usize;
    for i in 0..count {
        let member = btf.member_at(definition, i);
        found = latest(found, btf.is_called(member.name, name), i);
    }
    found
}

/// The type that a pointer points to.
pub fn pointed(btf: &Btf<'_>, id: usize) -> Option<usize>
    ensures { result ≡ pointed btf.now id }
{
    let entry = btf.type_of(resolved(btf, id));
    if entry.kind == 2 {
        Some(entry.of as usize)
    } else {
        None
    }
}

/// How many elements an array has.
fn count_of(btf: &Btf<'_>, target: Option<usize>) -> Result<u32, BtfFault>
    ensures { result ≡ count_of btf.now target }
{
    match target {
        Some(id) => {
            if btf.type_of(id).kind == 3 {
                Ok(btf.array_of(id).count)
            } else {
                Err(BtfFault::NoNumber)
            }
        }
        None => Err(BtfFault::NoNumber),
    }
}

/// The number that a member gives, 0 without one.
fn number_with(btf: &Btf<'_>, definition: usize, member: Option<usize>) -> Result<u32, BtfFault>
    requires { IfSome member (λ i. i < 65536) }
    ensures { result ≡ number_with btf.now definition member }
{
    match member {
        Some(i) => count_of(btf, pointed(btf, btf.member_at(definition, i).of as usize)),
        None => Ok(0),
    }
}

/// The number that the member of a name gives, 0 where there is none.
pub fn number_of(btf: &Btf<'_>, definition: usize, name: &[u8]) -> Result<u32, BtfFault>
    ensures { result ≡ number_of btf.now definition name.now }
{
    number_with(btf, definition, member_of(btf, definition, name))
}

/// How many bytes a type has.
fn target_size(btf: &Btf<'_>, target: Option<usize>) -> Result<u32, BtfFault>
    ensures { result ≡ target_size btf.now target }
{
    match target {
        Some(id) => match size_of(btf, id) {
            Some(size) => Ok(size),
            None => Err(BtfFault::NoSize),
        },
        None => Err(BtfFault::NoSize),
    }
}

/// The size of the type that a member gives, 0 without one.
fn size_with(btf: &Btf<'_>, definition: usize, member: Option<usize>) -> Result<u32, BtfFault>
    requires { IfSome member (λ i. i < 65536) }
    ensures { result ≡ size_with btf.now definition member }
{
    match member {
        Some(i) => target_size(btf, pointed(btf, btf.member_at(definition, i).of as usize)),
        None => Ok(0),
    }
}

/// The size of the type that the member of a name gives, 0 where there is none.
fn size_at(btf: &Btf<'_>, definition: usize, name: &[u8]) -> Result<u32, BtfFault>
    ensures { result ≡ size_at btf.now definition name.now }
{
    size_with(btf, definition, member_of(btf, definition, name))
}

/// The one size of two, of which one may be 0.
fn one_size(number: u32, size: u32) -> Result<u32, BtfFault>
    ensures { result ≡ one_size number size }
{
    if number == 0 {
        return Ok(size);
    }
    if size == 0 || number == size {
        Ok(number)
    } else {
        Err(BtfFault::TwoSizes)
    }
}

/// The size that two members give, one by a number and one by a type.
pub fn size_by(
    btf: &Btf<'_>,
    definition: usize,
    number: &[u8],
    name: &[u8],
) -> Result<u32, BtfFault>
    ensures { result ≡ size_by btf.now definition number.now name.now }
{
    let by_number = match number_of(btf, definition, number) {
        Ok(size) => size,
        Err(fault) => return Err(fault),
    };
    match size_at(btf, definition, name) {
        Ok(by_type) => one_size(by_number, by_type),
        Err(fault) => Err(fault),
    }
}
