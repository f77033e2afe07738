//! Whether two programs that are compared have the same maps.
ghost use Rattle.std.specs.Prelude.{◌≡◌, IfNone, IfSome};
ghost use Rattle.bpf_load.specs.Targets.{lent, loaded_of};
ghost use Rattle.bpfdb_jobs.specs.Programs.{AreSameMaps, IsOtherMap, are_same, same_map};

use crate::diff::Side;
use crate::load::name_in;
use bpf_isa::{MOST_MAPS, MapShape};

/// The first number of which two programs have another map each, by its name or the size of its
/// values, if there is one.
pub(crate) fn other_map(first: &Side<'_>, second: &Side<'_>) -> Option<usize>
    ensures some { IfSome result (IsOtherMap (loaded_of first.now.cpu.program (lent first.now.object))
        (loaded_of second.now.cpu.program (lent second.now.object))) }
    ensures none { IfNone result (AreSameMaps (loaded_of first.now.cpu.program (lent first.now.object))
        (loaded_of second.now.cpu.program (lent second.now.object))) }
{
    for number in 0..MOST_MAPS {
        if !same_map(first, second, number) {
            return Some(number);
        }
    }
    None
}

/// Whether a number has no other map in the one than in the other.
fn same_map(first: &Side<'_>, second: &Side<'_>, number: usize) -> bool
    ensures { result ≡ same_map (loaded_of first.now.cpu.program (lent first.now.object))
        (loaded_of second.now.cpu.program (lent second.now.object)) number }
{
    let one = first.cpu.program().maps().shape(number);
    let another = second.cpu.program().maps().shape(number);
    let named = name_in(first.object, number) == name_in(second.object, number);
    are_same(one, another, named)
}

/// Whether a map is no other one than another of its number, whose name is the same or isn't.
fn are_same(one: Option<MapShape>, another: Option<MapShape>, named: bool) -> bool
    ensures { result ≡ are_same one another named }
{
    match (one, another) {
        (Some(one), Some(another)) => one.value_size == another.value_size && named,
        _ => true,
    }
}
