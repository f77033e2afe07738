//! Types behind names and qualifiers, and how many bytes they have.
ghost use Rattle.std.specs.Prelude.{◌≡◌, ◌≤◌, ◌<◌, ◌+◌, IfSome, IfNone, Some, None};
ghost use Rattle.bpf_btf.specs.Layout.{array_entry};
ghost use Rattle.bpf_btf.specs.Types.{start_of, type_of};
ghost use Rattle.bpf_btf.specs.Sizes.{is_modifier, link, links, most_links, resolved, parts, all_parts, says_size, own_size, total_of, size_of};

use crate::layout::TypeEntry;
use crate::section::Btf;

/// So many values of a type.
#[derive(Clone, Copy)]
pub struct Values {
    /// The number of the type.
    pub of: usize,
    /// How many there are; 2^32 stands for more, too.
    pub times: u64,
}

/// How many names, qualifiers and arrays are gone behind at most: 32.
#[tactic(auto, unfolding(crate::specs::Sizes::most_links))]
fn most_links() -> u32
    ensures { result ≡ most_links }
{
    32
}

/// Whether a type is a name or a qualifier of another.
pub fn is_modifier(entry: &TypeEntry) -> bool
    ensures { result ≡ is_modifier entry.now }
{
    matches!(entry.kind, 8 | 9 | 10 | 11 | 18)
}

/// The type behind a name or a qualifier.
fn link(btf: &Btf<'_>, id: usize) -> usize
    ensures { result ≡ link btf.now id }
{
    let entry = btf.type_of(id);
    if is_modifier(&entry) {
        entry.of as usize
    } else {
        id
    }
}

/// The type behind at most so many names and qualifiers.
fn links(btf: &Btf<'_>, id: usize, most: u32) -> usize
    ensures { result ≡ links btf.now id most }
{
    let mut behind = id;
    for _ in 0..most {
        behind = link(btf, behind);
    }
    behind
}

/// The type behind at most 32 names and qualifiers.
pub fn resolved(btf: &Btf<'_>, id: usize) -> usize
    ensures { result ≡ resolved btf.now id }
{
    links(btf, id, most_links())
}

/// The values that values consist of.
fn parts(btf: &Btf<'_>, values: Values) -> Values
    ensures { result ≡ parts btf.now values }
{
    let entry = btf.type_of(values.of);
    if is_modifier(&entry) {
        return Values {
            of: entry.of as usize,
            times: values.times,
        };
    }
    if entry.kind != 3 {
        return values;
    }
    let array = btf.array_of(values.of);
    Values {
        of: array.of as usize,
        times: values
            .times
            .saturating_mul(u64::from(array.count))
            .min(4_294_967_296),
    }
}

/// The values that a value of a type consists of, behind at most so many names, qualifiers and
/// arrays.
fn all_parts(btf: &Btf<'_>, id: usize, most: u32) -> Values
    ensures { result ≡ all_parts btf.now id most }
{
    let mut values = Values { of: id, times: 1 };
    for _ in 0..most {
        values = parts(btf, values);
    }
    values
}

/// Whether a type says how many bytes it has.
fn says_size(entry: &TypeEntry) -> bool
    ensures { result ≡ says_size entry.now }
{
    matches!(entry.kind, 1 | 4 | 5 | 6 | 16 | 19)
}

/// How many bytes a type has that is no name, qualifier or array.
fn own_size(entry: &TypeEntry) -> Option<u32>
    ensures { result ≡ own_size entry.now }
{
    if says_size(entry) {
        return Some(entry.of);
    }
    if entry.kind == 2 { Some(8) } else { None }
}

/// So many bytes of values; 2^32 - 1 stands for more, too.
fn total_of(size: Option<u32>, times: u64) -> Option<u32>
    ensures { result ≡ total_of size times }
{
    match size {
        Some(size) => Some(times.saturating_mul(u64::from(size)).min(4_294_967_295) as u32),
        None => None,
    }
}

/// How many bytes a type has, None where it has no size.
pub fn size_of(btf: &Btf<'_>, id: usize) -> Option<u32>
    ensures { result ≡ size_of btf.now id }
{
    let values = all_parts(btf, id, most_links());
    let entry = btf.type_of(values.of);
    total_of(own_size(&entry), values.times)
}
