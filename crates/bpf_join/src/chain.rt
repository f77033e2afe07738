//! Several objects as one.
ghost use Rattle.std.specs.Prelude.{◌≡◌, IfErr, IfOk, length};
ghost use Rattle.bpf_join.specs.Chains.{ComesTo, IsChain, IsChainFault, IsTold, join_names, others};
ghost use Rattle.bpf_join.specs.Joined.{IsJoined};

use crate::fault::JoinFault;
use crate::joined::{Joined, join};
use arrayvec::ArrayVec;
use bpf_link::fault_names;
use std::alloc::Global;

/// Why several objects aren't joined.
#[derive(Drop)]
pub struct ChainFault {
    /// Which one of the others isn't joined to what comes of those before it.
    pub index: usize,
    pub fault: JoinFault,
    /// The names that the fault tells.
    pub names: ArrayVec<u8, 4369>,
}

/// The names that a fault of two objects tells.
fn join_names(first: &[u8], second: &[u8], section: &[u8], fault: &JoinFault) -> ArrayVec<u8, 4369>
    ensures { result.items ≡ join_names first.now second.now section.now fault.now }
{
    match fault {
        JoinFault::First(fault) => fault_names(first, section, fault),
        JoinFault::Second(fault) => fault_names(second, b".text", fault),
    }
}

/// Two objects as one, of which the second is the one of this number among the others.
fn join_one(
    alloc: Global,
    index: usize,
    first: &[u8],
    second: &[u8],
    section: &[u8],
    as_compiled: bool,
) -> Result<Joined, ChainFault>
    ensures ok { IfOk result (IsJoined first.now second.now section.now as_compiled) }
    ensures err { IfErr result (IsTold first.now second.now section.now as_compiled) }
    ensures index { IfErr result (λ told. told.index ≡ index) }
{
    match join(alloc, first, second, section, as_compiled) {
        Ok(joined) => Ok(joined),
        Err(fault) => Err(ChainFault {
            index,
            fault,
            names: join_names(first, second, section, &fault),
        }),
    }
}

/// What two objects came to, joined to further ones.
fn join_further(
    alloc: Global,
    first: &[u8],
    second: &[u8],
    further: &[Vec<u8>],
    section: &[u8],
    as_compiled: bool,
    begun: Vec<u8>,
) -> Result<Vec<u8>, ChainFault>
    requires { ComesTo first.now (others second.now further.now) section.now as_compiled 1 begun.items }
    ensures ok { IfOk result (λ all. ComesTo first.now (others second.now further.now) section.now
        as_compiled (length (others second.now further.now)) all.items) }
    ensures err { IfErr result (IsChainFault first.now (others second.now further.now) section.now
        as_compiled) }
{
    let mut all = begun;
    for k in 0..further.len() {
        let other = further[k].as_slice();
        match join_one(alloc, k + 1, all.as_slice(), other, section, as_compiled) {
            Ok(joined) => all = joined.bytes,
            Err(told) => return Err(told),
        }
    }
    Ok(all)
}

/// Several objects as one: the first is joined to the second, what comes of that to the next one,
/// and so on, each time as `join` says.
///
/// So what the first one calls is answered by the first of the others that has a function for it; and
/// what a function of one of these calls, by those behind it. Takes time in proportion to the lengths
/// of all, for each of them.
pub fn join_all(
    alloc: Global,
    first: &[u8],
    second: &[u8],
    further: &[Vec<u8>],
    section: &[u8],
    as_compiled: bool,
) -> Result<Joined, ChainFault>
    ensures ok { IfOk result (IsChain first.now (others second.now further.now) section.now
        as_compiled) }
    ensures err { IfErr result (IsChainFault first.now (others second.now further.now) section.now
        as_compiled) }
{
    let begun = match join_one(alloc, 0, first, second, section, as_compiled) {
        Ok(begun) => begun,
        Err(told) => return Err(told),
    };
    let fields = begun.fields;
    match join_further(
        alloc,
        first,
        second,
        further,
        section,
        as_compiled,
        begun.bytes,
    ) {
        Ok(bytes) => Ok(Joined { bytes, fields }),
        Err(told) => Err(told),
    }
}
