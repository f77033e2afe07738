//! What a test says of its program.
ghost use Rattle.std.specs.Prelude.{◌≡◌, ◌++◌};
ghost use Rattle.bpf_suite.specs.Tests.{limited, setting};

use crate::cells::Cells;
use crate::kind::Part;
use crate::reading::{Reading, place_of, test_of};
use crate::regs::Regs;
use crate::section::Text;
use crate::table::NamedMaps;

/// A program, and what it runs on: the text of a file, and what was read of it.
#[derive(Drop)]
pub struct Setting<'a, 'x> {
    /// The map table.
    pub maps: NamedMaps<'x, 'a>,
    /// The program is a listing, not the bytes of its words.
    pub is_listing: bool,
    pub program: Text<'x>,
    pub context: Text<'x>,
    /// The cells of maps that have a value before the first step.
    pub cells: Cells<'x, 'a>,
    /// The registers that get numbers before the first step, once each.
    pub regs: Regs<'x>,
    /// The most steps.
    pub limit: u64,
}

/// What a test says of its program, by what was read of its own sections and of those that it
/// shares, with another limit.
pub fn setting_of<'b, 'a, 'x>(
    own: &'x Reading<'b, 'a>,
    shared: &'x Reading<'b, 'a>,
    limit: u64,
) -> Setting<'a, 'x>
    ensures { result ≡ limited limit (setting (own.now ++ shared.now)) }
{
    let maps = place_of(Part::Maps, own, shared).named_maps();
    let program = place_of(Part::Program, own, shared).program();
    let context = place_of(Part::Context, own, shared).context();
    let cells = place_of(Part::Cells, own, shared).cells();
    let regs = place_of(Part::Registers, own, shared).regs();
    Setting {
        maps,
        is_listing: test_of(own, shared).has_listing(),
        program: Text { bytes: program },
        context: Text { bytes: context },
        cells: Cells { lines: cells },
        regs: Regs { lines: regs },
        limit,
    }
}
