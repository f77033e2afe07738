//! The variables of a section of data, by the symbols of an object.
ghost use Rattle.std.specs.Prelude.{◌≡◌, ◌<◌, ◌-◌, length, IfSome, min};
ghost use Rattle.bpf_lines.specs.Globals as spec;

use bpf_btf::{Btf, latest};
use bpf_link::{Plan, SymbolEntry, short_at, symbol_place};

/// The most symbols among which a variable is looked for.
const MOST_SYMBOLS: usize = 65_536;

/// A byte of a variable.
#[derive(Clone, Copy)]
pub struct Global {
    /// Where the variable's name stands in the file.
    pub name: usize,
    /// The number of its type, if BTF has that.
    pub of: Option<usize>,
    /// How far the byte lies behind its beginning.
    pub offset: u32,
}

/// Whether a symbol is a variable of a section that begins at a byte or before it.
fn is_begun(section: usize, offset: u32, symbol: &SymbolEntry) -> bool
    ensures { result ≡ spec.is_begun section offset symbol.now }
{
    if symbol.kind != 1 || symbol.name == 0 {
        return false;
    }
    usize::from(symbol.section) == section && symbol.value <= u64::from(offset)
}

/// The variable that begins later: one that was found before, or the i-th symbol.
fn later(
    plan: &Plan<'_>,
    section: usize,
    offset: u32,
    found: Option<usize>,
    i: usize,
) -> Option<usize>
    requires index { i < length plan.now.symbols }
    requires found { IfSome found (λ k. k < length plan.now.symbols) }
    ensures value { result ≡ spec.later plan.now section offset found i }
    ensures below { IfSome result (λ k. k < length plan.now.symbols) }
{
    let symbol = plan.symbols.at(i);
    if !is_begun(section, offset, &symbol) {
        return found;
    }
    match found {
        Some(k) => {
            let is_later = plan.symbols.at(k).value <= symbol.value;
            latest(found, is_later, i)
        }
        None => Some(i),
    }
}

/// The variable that begins last of those that begin at a byte of a section or before it.
fn last_begun(plan: &Plan<'_>, section: usize, offset: u32) -> Option<usize>
    ensures value { result ≡ spec.last_begun plan.now section offset }
    ensures below { IfSome result (λ k. k < length plan.now.symbols) }
{
    let mut found = None;
    let count = plan.symbols.len().min(MOST_SYMBOLS);
    for i in 0..count {
        found = later(plan, section, offset, found, i);
    }
    found
}

/// The type of the variable of a name in a section of variables.
fn variable_type(types: &Btf<'_>, section: Option<usize>, name: &[u8]) -> Option<usize>
    ensures { result ≡ spec.variable_type types.now section name.now }
{
    let section = section?;
    match types.variable_of(name, section) {
        Some(i) => {
            let variable = types.variable_at(section, i);
            Some(types.type_of(variable).of as usize)
        }
        None => None,
    }
}

/// Whether a value of a type ends at a byte, or before it.
fn ends_before(types: &Btf<'_>, of: Option<usize>, offset: u32) -> bool
    ensures { result ≡ spec.ends_before types.now of offset }
{
    let Some(id) = of else {
        return false;
    };
    match types.size_of(id) {
        Some(size) => size <= offset,
        None => false,
    }
}

/// The byte of a variable that a symbol names, unless the variable ends before it.
#[tactic(auto, unfolding(crate::specs::Globals::global_of))]
fn global_of(
    plan: &Plan<'_>,
    types: &Btf<'_>,
    root: Option<usize>,
    offset: u32,
    symbol: &SymbolEntry,
) -> Option<Global>
    ensures { result ≡ spec.global_of plan.now types.now root offset symbol.now }
{
    let name = symbol_place(plan, symbol);
    let of = variable_type(types, root, short_at(plan.object.bytes(), name));
    let behind = u64::from(offset).saturating_sub(symbol.value) as u32;
    if ends_before(types, of, behind) {
        return None;
    }
    Some(Global {
        name,
        of,
        offset: behind,
    })
}

/// The variable in which a byte of a section of data lies.
pub fn global_at(
    plan: &Plan<'_>,
    types: &Btf<'_>,
    section: usize,
    root: Option<usize>,
    offset: u32,
) -> Option<Global>
    ensures { result ≡ spec.global_at plan.now types.now section root offset }
{
    match last_begun(plan, section, offset) {
        Some(k) => global_of(plan, types, root, offset, &plan.symbols.at(k)),
        None => None,
    }
}
