//! Stubs as the command line lists them.
ghost use Rattle.std.specs.Prelude.{◌≡◌, ◌≤◌, ◌<◌, ◌++◌, ◌∷◌, [], IfOk, IfErr, IfNone, IfSome, Ok, Err, length, position};
ghost use Rattle.counted_io.specs.Numerals.{natural};
ghost use Rattle.bpf_link.specs.StubLists.{number_below, has_name, named_helper, without_prefix, helper_in, value_in, is_equals, stub_in, with_stub, stubs_in, most_stubs};

use crate::fault::LinkFault;
use crate::helpers::{MOST_HELPERS, helper_name};
use crate::stubs::{Stub, is_answered};
use arrayvec::ArrayVec;
use counted_io::natural;

/// How many stubs a list may have.
pub const MOST_STUBS: usize = 16;

/// The number that a text is, if it is below a bound.
fn number_below(text: &[u8], bound: u64) -> Result<u32, LinkFault>
    requires { bound ≤ 4294967296 }
    ensures { result ≡ number_below bound (natural text.now) }
{
    let Some(numeral) = natural(text) else {
        return Err(LinkFault::StubList);
    };
    match numeral.to_u64() {
        Some(n) => {
            if n < bound {
                Ok(n as u32)
            } else {
                Err(LinkFault::StubRange)
            }
        }
        None => Err(LinkFault::StubRange),
    }
}

/// Whether a helper of the kernel has this name.
fn has_name(name: &[u8], helper: u32) -> bool
    ensures { result ≡ has_name name.now helper }
{
    !name.is_empty() && helper_name(helper) == name
}

/// The number of the helper of this name.
fn named_helper(name: &[u8]) -> Option<u32>
    ensures { result ≡ named_helper name.now }
{
    let mut found = None;
    for helper in 0..MOST_HELPERS + 1 {
        if has_name(name, helper) {
            found = Some(helper);
        }
    }
    found
}

/// A name without `bpf_` at its beginning.
#[tactic(auto, unfolding(crate::specs::StubLists::without_prefix))]
fn without_prefix(name: &[u8]) -> &[u8]
    ensures { result.now ≡ without_prefix name.now }
{
    match name.strip_prefix(b"bpf_") {
        Some(rest) => rest,
        None => name,
    }
}

/// The number of a helper, by its number or its name.
#[tactic(auto, unfolding(crate::specs::StubLists::helper_in))]
fn helper_in(text: &[u8]) -> Result<u32, LinkFault>
    ensures { result ≡ helper_in text.now }
{
    if natural(text).is_some() {
        return number_below(text, 4_294_967_296);
    }
    match named_helper(without_prefix(text)) {
        Some(helper) => Ok(helper),
        None => Err(LinkFault::StubList),
    }
}

/// What answers a helper.
fn value_in(text: &[u8]) -> Result<u32, LinkFault>
    ensures { result ≡ value_in text.now }
{
    match text.strip_prefix(b"-") {
        Some(digits) => match number_below(digits, 2_147_483_649) {
            Ok(n) => Ok(n.wrapping_neg()),
            Err(fault) => Err(fault),
        },
        None => number_below(text, 2_147_483_648),
    }
}

/// Where the first `=` stands.
fn equals_in(item: &[u8]) -> Option<usize>
    ensures { result ≡ position is_equals item.now }
{
    item.iter().position(|byte| *byte == b'=')
}

/// The stub that an item of a list is.
fn stub_in(item: &[u8]) -> Result<Stub, LinkFault>
    ensures { result ≡ stub_in item.now }
{
    let Some(at) = equals_in(item) else {
        return Err(LinkFault::StubList);
    };
    let helper = match helper_in(&item[..at]) {
        Ok(helper) => helper,
        Err(fault) => return Err(fault),
    };
    match value_in(&item[at + 1..]) {
        Ok(value) => Ok(Stub { helper, value }),
        Err(fault) => Err(fault),
    }
}

/// Why a stub can't be added to those before it.
fn stub_fault(stubs: &[Stub], stub: Stub) -> Option<LinkFault>
    requires { length stubs.now ≤ most_stubs }
    ensures none { IfNone result (with_stub stub stubs.now ≡ Ok (stubs.now ++ stub ∷ [])) }
    ensures few { IfNone result (length stubs.now < most_stubs) }
    ensures some { IfSome result (λ fault. with_stub stub stubs.now ≡ Err fault) }
{
    if is_answered(stubs, stub.helper) {
        return Some(LinkFault::StubTwice);
    }
    if stubs.len() == MOST_STUBS {
        return Some(LinkFault::ManyStubs);
    }
    None
}

/// The stubs that a text lists, as `5=0,get_current_pid_tgid=-1`: helpers, each once, by their
/// numbers or their names in the kernel, with or without `bpf_`; and what answers them, -2147483648
/// to 2147483647; 1 to 16 of them.
///
/// The fault is that of the first item that has one. Takes time in proportion to the length of the
/// text.
pub fn stubs_in(text: &[u8]) -> Result<ArrayVec<Stub, MOST_STUBS>, LinkFault>
    ensures ok { IfOk result (λ stubs. stubs_in text.now ≡ Ok stubs.items) }
    ensures err { IfErr result (λ fault. stubs_in text.now ≡ Err fault) }
{
    let mut stubs = ArrayVec::new();
    for item in text.split(|byte| *byte == b',') {
        let stub = match stub_in(item) {
            Ok(stub) => stub,
            Err(fault) => return Err(fault),
        };
        match stub_fault(stubs.as_slice(), stub) {
            Some(fault) => return Err(fault),
            None => stubs.push(stub),
        }
    }
    Ok(stubs)
}
