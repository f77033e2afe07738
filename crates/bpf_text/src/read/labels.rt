//! Where labels stand.
ghost use Rattle.std.specs.Prelude.{◌≡◌, ℕ, List, OnOk};
ghost use Rattle.bpf_text.specs.Scaffolding.Rounds.{labels_with, definition_of};
ghost use Rattle.bpf_text.specs.Scaffolding.Labels.{labels_in};

use crate::read::term::Name;
use crate::read::text_key::TextKey;
use indexmap::IndexMap;
use std::alloc::AllocError;

/// Where a label is defined.
#[derive(Clone, Copy)]
pub struct Definition {
    /// Its line, counted from 1.
    pub line: usize,
    /// The slot that it names.
    pub slot: u16,
}

/// Where each label that was met is defined, in the order of the labels' lines. Hashes by the text
/// of the listing.
pub type LabelMap<'a> = IndexMap<&'a [u8], Definition, TextKey>;

/// Puts a line's label, if it has one.
pub fn put_label<'a>(
    labels: &mut LabelMap<'a>,
    label: Option<Name<'a>>,
    definition: Definition,
) -> Result<(), AllocError>
    ensures { OnOk result ((q : List ℕ) → labels_in labels.new q
        ≡ labels_with (labels_in labels.old) definition label.entry q) }
{
    match label {
        None => Ok(()),
        Some(name) => match labels.insert(name.bytes, definition) {
            Ok(_) => Ok(()),
            Err(_) => Err(AllocError),
        },
    }
}

/// Where a line's label is defined, if it is there already.
pub fn definition_of(labels: &LabelMap<'_>, label: &Option<Name<'_>>) -> Option<Definition>
    ensures { result ≡ definition_of (labels_in labels.now) label.now }
{
    match label {
        Some(name) => labels.get(name.bytes).copied(),
        None => None,
    }
}
