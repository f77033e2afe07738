//! The map table that a text names.
ghost use Rattle.std.specs.Prelude.{◌≡◌};
ghost use Rattle.bpf_suite.specs.Tables.{IsTable};

use crate::section::{Text, copied};
use bpf_isa::{MapFault, MapTable};
use std::marker::Model;

/// The text of a map table, if there is one, and the table that it names, or why it names none.
/// Contracts see the text.
#[derive(Drop)]
pub struct NamedMaps<'x, 'a> {
    text: Option<Text<'a>>,
    table: &'x Result<MapTable, MapFault>,
}

impl<'x, 'a> Model for NamedMaps<'x, 'a> {
    ghost use Rattle.std.specs.Prelude.{ℕ, List, Option};
    ghost use Rattle.bpf_suite.specs.Tables.{IsTable};

    ghost Value = { Option (List ℕ) };

    ghost view = { λ m. m.text };

    ghost invariant = { λ m. IsTable m.text m.table.now };
}

impl<'x, 'a> NamedMaps<'x, 'a> {
    /// A text, and the table that it names.
    pub fn of(text: &Option<Text<'a>>, table: &'x Result<MapTable, MapFault>) -> NamedMaps<'x, 'a>
        requires { IsTable text.now table.now }
        ensures { result ≡ text.now }
    {
        NamedMaps {
            text: copied(text),
            table,
        }
    }

    /// The table.
    pub fn table(&self) -> &'x Result<MapTable, MapFault>
        ensures { IsTable self.now result.now }
    {
        self.table
    }
}

/// The table that a text names; one without maps where there is no text.
pub fn table_of(text: &Option<Text<'_>>) -> Result<MapTable, MapFault>
    ensures { IsTable text.now result }
{
    match text {
        None => Ok(MapTable::empty()),
        Some(text) => MapTable::parse(text.bytes),
    }
}
