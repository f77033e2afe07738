//! An object of which programs are called, with what is to be known of it.
ghost use Rattle.std.specs.Prelude.{◌≡◌, IfOk};
ghost use Rattle.bpf_turns.specs.Parts.{HasRoom};
ghost use Rattle.bpf_turns.specs.Turned.{has_room, source_at, source_in, source_of};

use bpf_link::{Found, LinkFault, Plan, planned};

/// An object of which programs are called.
#[derive(Drop)]
pub struct Source<'a> {
    /// The plan of one of its sections of code.
    pub plan: Plan<'a>,
    /// Whether its programs are those of that section alone.
    pub only: bool,
    /// The section of symbols.
    pub table: usize,
}

/// Whether there is room for another section, and the symbols are one.
fn has_room(source: &Source<'_>) -> bool
    ensures { result ≡ has_room source.now }
{
    let count = source.plan.object.len();
    count < 0xfeff && (source.table < count && source.plan.object.bytes().len() >= 64)
}

/// An object, if there is room in it.
fn source_at<'a>(source: Source<'a>) -> Result<Source<'a>, LinkFault>
    ensures value { result ≡ source_at source.entry }
    ensures room { IfOk result HasRoom }
{
    if !has_room(&source) {
        return Err(LinkFault::SectionTable);
    }
    Ok(source)
}

/// The object of a plan, with its symbols.
fn source_in<'a>(plan: Plan<'a>, only: bool) -> Result<Source<'a>, LinkFault>
    ensures value { result ≡ source_in plan.entry only plan.entry.table }
    ensures room { IfOk result HasRoom }
{
    match plan.table {
        Found::Only(table) => source_at(Source { plan, only, table }),
        Found::Nothing => Err(LinkFault::SymbolTable),
        Found::Several => Err(LinkFault::SymbolTable),
    }
}

/// The object in a file, by the plan of a section of code, whose programs may be all that count.
pub fn source_of<'a>(bytes: &'a [u8], section: &[u8], only: bool) -> Result<Source<'a>, LinkFault>
    ensures value { result ≡ source_of bytes.now section.now only }
    ensures room { IfOk result HasRoom }
{
    match planned(bytes, section) {
        Ok(plan) => source_in(plan, only),
        Err(fault) => Err(fault),
    }
}
