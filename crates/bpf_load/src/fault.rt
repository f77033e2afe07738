//! Why no program is made of FILE.
ghost use Rattle.std.specs.Prelude.{◌≡◌, [], List, None, get_or, map, ℕ};
ghost use Rattle.bpf_link.specs.Names.{fault_names};
ghost use Rattle.bpf_load.specs.Faults.{Tells, count_name, joined_fault, joined_index, name_of, or_found, turn_at, turn_name};

use arrayvec::ArrayVec;
use bpf_counts::CountFault;
use bpf_isa::{LoadFault, MapFault};
use bpf_join::{ChainFault, JoinFault};
use bpf_link::{LinkFault, fault_names};
use bpf_text::AsmFault;
use bpf_turns::TurnFault;
use input_texts::{map_in, name_in};

/// Why no program is made of an object.
#[derive(Drop)]
pub struct ObjectFault<'a> {
    pub fault: LinkFault,
    /// Which one of the objects with functions has it; none where it is the first object, or what
    /// comes of that and of those before.
    pub index: Option<usize>,
    /// The name that it tells, where it is one that was asked for.
    pub asked: Option<&'a [u8]>,
    /// The names that it tells else, as they stand in the object.
    pub found: ArrayVec<u8, 4369>,
}

/// Why no program is made of FILE, in the order in which it is looked at; of an object it is looked
/// first at that, then at its maps.
#[derive(Drop)]
pub enum TargetFault<'a> {
    /// The map table.
    Maps(MapFault),
    /// The listing.
    Listing(AsmFault),
    /// The checker refuses the words.
    Program(LoadFault),
    /// The object.
    Object(ObjectFault<'a>),
}

impl<'a> ObjectFault<'a> {
    /// The name that it tells.
    pub fn name(&self) -> &[u8]
        ensures { result.now ≡ name_of self.now }
    {
        match self.asked {
            Some(name) => name,
            None => self.found.as_slice(),
        }
    }
}

/// A fault of an object, which tells names that stand there.
pub fn in_object<'a>(object: &[u8], section: &[u8], fault: LinkFault) -> ObjectFault<'a>
    ensures { Tells fault None (fault_names object.now section.now fault) result }
{
    ObjectFault {
        fault,
        index: None,
        asked: None,
        found: fault_names(object, section, &fault),
    }
}

/// What is said of a map.
fn text_at<'a>(texts: &[&'a str], which: usize) -> &'a [u8]
    ensures { result.now ≡ get_or (map (λ text. text.now) texts.now) which [] }
{
    match texts.get(which) {
        Some(text) => text.as_bytes(),
        None => &[],
    }
}

/// The name of the map of a fault.
fn asked_map<'a>(fault: &LinkFault, text: &'a [u8]) -> Option<&'a [u8]>
    ensures { (found : List ℕ) → or_found result found ≡ count_name fault.now text.now found }
{
    match fault {
        LinkFault::Map { .. } => Some(map_in(text)),
        _ => None,
    }
}

/// One of a map that is told its entries.
pub fn of_count<'a>(file: &[u8], texts: &[&'a str], why: CountFault) -> ObjectFault<'a>
    ensures { Tells why.fault None (count_name why.fault
        (get_or (map (λ text. text.now) texts.now) why.which []) (fault_names file.now [] why.fault)) result }
{
    ObjectFault {
        fault: why.fault,
        index: None,
        asked: asked_map(&why.fault, text_at(texts, why.which)),
        found: fault_names(file, b"", &why.fault),
    }
}

/// The name of a program in turn, if there is one of this number.
fn turn_at<'a>(turns: &[&'a str], which: usize) -> Option<&'a [u8]>
    ensures { (found : List ℕ) → or_found result found
        ≡ turn_at (map (λ text. text.now) turns.now) which found }
{
    match turns.get(which) {
        Some(text) => Some(name_in(text.as_bytes())),
        None => None,
    }
}

/// The name of the program in turn of a fault.
fn asked_turn<'a>(fault: &LinkFault, turns: &[&'a str], which: usize) -> Option<&'a [u8]>
    ensures { (found : List ℕ) → or_found result found
        ≡ turn_name fault.now (map (λ text. text.now) turns.now) which found }
{
    match fault {
        LinkFault::Memory => None,
        _ => turn_at(turns, which),
    }
}

/// One of programs in turn.
pub fn of_turns<'a>(
    object: &[u8],
    section: &[u8],
    turns: &[&'a str],
    why: TurnFault,
) -> ObjectFault<'a>
    ensures { Tells why.fault None (turn_name why.fault (map (λ text. text.now) turns.now) why.which
        (fault_names object.now section.now why.fault)) result }
{
    ObjectFault {
        fault: why.fault,
        index: None,
        asked: asked_turn(&why.fault, turns, why.which),
        found: fault_names(object, section, &why.fault),
    }
}

/// One of objects that are joined.
pub fn of_others<'a>(told: ChainFault) -> ObjectFault<'a>
    ensures { Tells (joined_fault told.fault) (joined_index told.fault told.index) told.names.items result }
{
    let (fault, index) = match told.fault {
        JoinFault::First(fault) => (fault, None),
        JoinFault::Second(fault) => (fault, Some(told.index)),
    };
    ObjectFault {
        fault,
        index,
        asked: None,
        found: told.names,
    }
}
