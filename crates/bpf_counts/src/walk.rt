//! A walk over the types of a section `.BTF`.
ghost use Rattle.std.specs.Prelude.{◌≡◌, ◌≤◌, ◌<◌, ◌+◌, ◌*◌, IfErr, IfOk, IfSome, length};
ghost use Rattle.bpf_btf.specs.Layout.{type_entry};
ghost use Rattle.bpf_btf.specs.Types.{behind, rest_size};
ghost use Rattle.bpf_counts.specs.Walks.{IsCut, IsWalk, is_maps, listed, listed_at};

use bpf_btf::is_called;
use bpf_link::u32_at;

/// What is found among types.
#[derive(Clone, Copy)]
pub struct Walk {
    /// How many there are.
    pub count: usize,
    /// Where the section of maps stands.
    pub maps: Option<usize>,
}

/// A type is cut off.
#[derive(Clone, Copy)]
pub struct Cut;

/// How many bytes the type at a place has behind its first 12.
fn rest_size(types: &[u8], at: usize) -> usize
    requires { at + 12 ≤ length types.now }
    ensures value { result ≡ rest_size (type_entry types.now at) }
    ensures small { result < 786432 }
{
    let info = u32_at(types, at + 4);
    let count = (info % 0x1_0000) as usize;
    match info / 0x100_0000 % 32 {
        1 | 14 | 17 => 4,
        3 => 12,
        6 | 13 => 8 * count,
        4 | 5 | 15 | 19 => 12 * count,
        _ => 0,
    }
}

/// Where the type behind the one at a place stands.
fn next_place(types: &[u8], at: usize) -> Result<usize, Cut>
    requires { at ≤ length types.now }
    ensures ok { IfOk result (λ next. next ≡ behind types.now at) }
    ensures within { IfOk result (λ next. (at + 12 ≤ next) × (next ≤ length types.now)) }
    ensures err { IfErr result (λ cut. length types.now < behind types.now at) }
{
    if types.len() - at < 12 {
        return Err(Cut);
    }
    let next = at + (12 + rest_size(types, at));
    if next > types.len() {
        return Err(Cut);
    }
    Ok(next)
}

/// Whether the type at a place is the section of maps.
fn is_maps(types: &[u8], strings: &[u8], at: usize) -> bool
    requires { at + 12 ≤ length types.now }
    ensures { result ≡ is_maps types.now strings.now at }
{
    u32_at(types, at + 4) / 0x100_0000 % 32 == 15 && is_called(strings, u32_at(types, at), b".maps")
}

/// What is found among types.
pub fn walked(types: &[u8], strings: &[u8]) -> Result<Walk, Cut>
    ensures ok { IfOk result (IsWalk types.now strings.now) }
    ensures few { IfOk result (λ walk. 12 * walk.count ≤ length types.now) }
    ensures maps { IfOk result (λ walk. IfSome walk.maps (λ at. at + 12 ≤ length types.now)) }
    ensures err { IfErr result (λ cut. IsCut types.now) }
{
    let mut walk = Walk {
        count: 0,
        maps: None,
    };
    let mut at = 0;
    while at < types.len() {
        let next = match next_place(types, at) {
            Ok(next) => next,
            Err(cut) => return Err(cut),
        };
        walk = Walk {
            count: walk.count + 1,
            maps: if is_maps(types, strings, at) {
                Some(at)
            } else {
                walk.maps
            },
        };
        at = next;
    }
    Ok(walk)
}

/// What the section of maps at a place lists.
fn listed(types: &[u8], at: usize) -> &[u8]
    requires { at + 12 ≤ length types.now }
    ensures value { result.now ≡ listed types.now at }
    ensures few { length result.now ≤ 786420 }
{
    let end = at + 12 + 12 * (u32_at(types, at + 4) % 0x1_0000) as usize;
    if end > types.len() {
        return &[];
    }
    &types[at + 12..end]
}

/// What the section of maps lists, if there is one.
pub fn listed_at(types: &[u8], maps: Option<usize>) -> &[u8]
    requires { IfSome maps (λ at. at + 12 ≤ length types.now) }
    ensures value { result.now ≡ listed_at types.now maps }
    ensures few { length result.now ≤ 786420 }
{
    match maps {
        Some(at) => listed(types, at),
        None => &[],
    }
}
