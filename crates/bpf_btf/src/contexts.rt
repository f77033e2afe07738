//! The struct by which the kernel gives a program its packet.
ghost use Rattle.std.specs.Prelude.{◌≡◌, ◌≤◌, ◌<◌, ◌+◌, IfSome};
ghost use Rattle.bpf_btf.specs.Contexts.{first_parameter, function_of, function_takes, has_four, is_function, is_kernels, is_narrow, is_struct, points_to, takes};

use crate::members::{latest, member_of, pointed};
use crate::section::Btf;
use crate::sizes::{resolved, size_of};

/// The most bytes of a function's name, which is compared with that of each type.
const LONGEST_NAME: usize = 255;

/// Whether a type is the function of a name.
fn is_function(btf: &Btf<'_>, name: &[u8], id: usize) -> bool
    ensures { result ≡ is_function btf.now name.now id }
{
    let entry = btf.type_of(id);
    entry.kind == 12 && btf.is_called(entry.name, name)
}

/// How many types stand before the function of a name.
fn function_of(btf: &Btf<'_>, name: &[u8]) -> Option<usize>
    ensures value { result ≡ function_of btf.now name.now }
    ensures below { IfSome result (λ i. i < 18446744073709551615) }
{
    let mut found = None;
    for i in 0..btf.len() {
        found = latest(found, is_function(btf, name, i + 1), i);
    }
    found
}

/// The type of the first parameter of functions of a type.
fn first_parameter(btf: &Btf<'_>, id: usize) -> usize
    ensures { result ≡ first_parameter btf.now id }
{
    let entry = btf.type_of(id);
    if entry.kind == 13 && entry.count > 0 {
        btf.parameter_of(id)
    } else {
        0
    }
}

/// Whether a type is the struct of a name.
fn is_struct(btf: &Btf<'_>, of: &[u8], id: usize) -> bool
    ensures { result ≡ is_struct btf.now of.now id }
{
    let entry = btf.type_of(id);
    entry.kind == 4 && btf.is_called(entry.name, of)
}

/// Whether a type has four bytes.
fn has_four(size: Option<u32>) -> bool
    ensures { result ≡ has_four size }
{
    match size {
        Some(size) => size == 4,
        None => false,
    }
}

/// Whether a member of a struct has four bytes.
fn is_narrow(btf: &Btf<'_>, definition: usize, member: Option<usize>) -> bool
    requires { IfSome member (λ i. i < 65536) }
    ensures { result ≡ is_narrow btf.now definition member }
{
    match member {
        Some(i) => has_four(size_of(btf, btf.member_at(definition, i).of as usize)),
        None => false,
    }
}

/// Whether a type is the kernel's own struct of packets of a name.
fn is_kernels(btf: &Btf<'_>, of: &[u8], id: usize) -> bool
    ensures { result ≡ is_kernels btf.now of.now id }
{
    is_struct(btf, of, id) && is_narrow(btf, id, member_of(btf, id, b"data"))
}

/// Whether what a pointer points to is that struct.
fn points_to(btf: &Btf<'_>, of: &[u8], target: Option<usize>) -> bool
    ensures { result ≡ points_to btf.now of.now target }
{
    match target {
        Some(id) => is_kernels(btf, of, resolved(btf, id)),
        None => false,
    }
}

/// Whether a function takes that struct.
fn function_takes(btf: &Btf<'_>, of: &[u8], function: Option<usize>) -> bool
    requires { IfSome function (λ i. i < 18446744073709551615) }
    ensures { result ≡ function_takes btf.now of.now function }
{
    match function {
        Some(i) => {
            let proto = btf.type_of(i + 1).of as usize;
            points_to(btf, of, pointed(btf, first_parameter(btf, proto)))
        }
        None => false,
    }
}

/// Whether the function of a name takes that struct.
pub fn takes(btf: &Btf<'_>, of: &[u8], name: &[u8]) -> bool
    ensures { result ≡ takes btf.now of.now name.now }
{
    name.len() <= LONGEST_NAME && function_takes(btf, of, function_of(btf, name))
}
