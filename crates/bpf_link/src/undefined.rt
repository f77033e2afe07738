//! The symbols to which code refers and that its object leaves undefined.
ghost use Rattle.std.specs.Prelude.{◌≡◌, ◌≤◌, length};
ghost use Rattle.bpf_link.specs.Undefined.{all_told, is_undefined, padded, undefined_below, undefined_in, with_new, with_undefined};

use crate::fault::{LinkFault, RelocationFault};
use crate::layout::RelocationEntry;
use crate::names::with_place;
use crate::parts::Side;
use crate::plan::{Plan, symbol_place};
use crate::tables::Relocations;
use arrayvec::ArrayVec;

/// Whether a relocation is against a symbol that is defined elsewhere.
fn is_undefined(plan: &Plan<'_>, relocation: &RelocationEntry) -> bool
    ensures { result ≡ is_undefined plan.now relocation.now }
{
    let symbol = relocation.symbol as usize;
    if symbol >= plan.symbols.len() {
        return false;
    }
    plan.symbols.at(symbol).section == 0
}

/// Places with one more, unless it is among them.
fn with_new(at: usize, places: ArrayVec<usize, 17>) -> ArrayVec<usize, 17>
    ensures { result.items ≡ with_new at places.items }
{
    if places.as_slice().contains(&at) {
        return places;
    }
    with_place(at, places)
}

/// Places with that of the name of a relocation's symbol, if that is defined elsewhere.
fn with_undefined(
    plan: &Plan<'_>,
    relocation: &RelocationEntry,
    places: ArrayVec<usize, 17>,
) -> ArrayVec<usize, 17>
    ensures { result.items ≡ with_undefined plan.now relocation.now places.items }
{
    if !is_undefined(plan, relocation) {
        return places;
    }
    let symbol = plan.symbols.at(relocation.symbol as usize);
    with_new(symbol_place(plan, &symbol), places)
}

/// Places with those of the names of all symbols of relocations that are defined elsewhere.
fn with_all(
    plan: &Plan<'_>,
    relocations: &Relocations<'_>,
    places: ArrayVec<usize, 17>,
) -> ArrayVec<usize, 17>
    ensures { result.items
        ≡ undefined_below plan.now relocations.now places.items (length relocations.now) }
{
    let mut all = places;
    for i in 0..relocations.len() {
        all = with_undefined(plan, &relocations.at(i), all);
    }
    all
}

/// Where the names stand of the symbols to which the code of a plan refers and that are defined
/// elsewhere, each once: the first 17.
fn undefined_in(plan: &Plan<'_>) -> ArrayVec<usize, 17>
    ensures { result.items ≡ undefined_in plan.now }
{
    let code = with_all(
        plan,
        &plan.parts.part(Side::Code).relocations,
        ArrayVec::new(),
    );
    with_all(plan, &plan.parts.part(Side::Text).relocations, code)
}

/// Seventeen places, of which these are the first.
fn padded(places: &[usize]) -> [usize; 17]
    requires { length places.now ≤ 17 }
    ensures { result ≡ padded places.now }
{
    let mut all = [0; 17];
    all[..places.len()].copy_from_slice(places);
    all
}

/// What is told of a fault of a plan's relocations: of a symbol that isn't defined all that aren't.
pub fn all_told(plan: &Plan<'_>, fault: LinkFault) -> LinkFault
    ensures { result ≡ all_told plan.now fault }
{
    match fault {
        LinkFault::Relocation {
            fault: RelocationFault::Extern,
            slot,
            ..
        } => {
            let found = undefined_in(plan);
            LinkFault::Undefined {
                slot,
                count: found.len(),
                places: padded(found.as_slice()),
            }
        }
        _ => fault,
    }
}
