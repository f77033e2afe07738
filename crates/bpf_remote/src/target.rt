//! What gdb is told of.
use crate::layout::Layout;
use bpf_lines::Names;
use bpfdb_script::SlotTexts;

/// What gdb is told of: a machine, the names of what lies in its maps, and the places of its slots.
#[derive(Clone, Copy)]
pub struct Target<'a> {
    /// Which machine gdb takes this one for.
    pub layout: Layout,
    /// The names that answers about where values came from tell, where they are known.
    pub names: Option<&'a Names<'a>>,
    /// Where each slot stands in C, where that is known: it ends the lines of moves in these answers.
    pub places: SlotTexts<'a>,
}
