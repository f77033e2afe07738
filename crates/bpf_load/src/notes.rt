//! What is said of an object's program beside what it does: where the kernel would do otherwise.
ghost use Rattle.std.specs.Prelude.{◌≡◌, ◌≤◌, ◌<◌, ◌+◌, ◌*◌, ◌/◌, length, option_map};
ghost use Rattle.bpf_load.specs.Notes.{AreNotes, AreRecords, AreRecordsFor, IsCode, IsCodeFor, IsFieldCount, difference, differs, has_kind, is_told};

use crate::loading::own_object;
use crate::target::Target;
use bpf_join::own_records;
use bpf_link::{fields_as_compiled, is_called, name_from, named_bytes, reached_code, u32_at};
use std::alloc::Global;

/// The section of a library that tells which of its helpers and kinds of maps answer otherwise than the
/// kernel's.
const TABLE: &[u8] = b".bpfdb.differs";

/// The bytes of a row of it: a number of 4 bytes, little-endian, and what is said of it, up to a zero.
/// The record of a map has as many.
const ROW: usize = 64;

/// The number of a helper is below this one, and that of a kind of maps has it added.
const KINDS: u32 = 65536;

/// What there is to say of a program.
#[derive(Drop)]
pub struct Notes<'a> {
    /// How many relocations of fields stay as they were compiled, in FILE's own code.
    pub fields: u32,
    /// FILE's own code, as far as it is reached.
    code: Vec<u8>,
    /// The records of its maps.
    records: Vec<u8>,
    /// The rows of the library that was linked by itself; none where none was.
    rows: &'a [u8],
}

impl<'a> Notes<'a> {
    /// How many rows the library has.
    pub fn len(&self) -> usize
        ensures { result ≡ length self.now.rows.now / 64 }
    {
        self.rows.len() / ROW
    }

    /// Whether a row is of a helper that the code calls, or of the kind of a map.
    fn is_told(&self, k: usize) -> bool
        requires { 64 * k + 64 ≤ length self.now.rows.now }
        ensures { result ≡ is_told self.now k }
    {
        let number = u32_at(self.rows, ROW * k);
        if number < KINDS {
            is_called(&self.code, number)
        } else {
            has_kind(&self.records, number - KINDS)
        }
    }

    /// What is said of the helper of a row, where the code calls it, or of the kind of a map.
    pub fn difference(&self, k: usize) -> Option<&[u8]>
        requires { 64 * k + 64 ≤ length self.now.rows.now }
        ensures { option_map (λ text. text.now) result ≡ difference self.now k }
    {
        if self.is_told(k) {
            Some(name_from(self.rows, ROW * k + 4))
        } else {
            None
        }
    }

    /// Whether something is said of a helper or a map.
    pub fn differs(&self) -> bool
        ensures { result ≡ differs self.now }
    {
        let mut found = false;
        for k in 0..self.len() {
            found = self.is_told(k) || found;
        }
        found
    }
}

/// Whether a map is of a kind, by their records.
fn has_kind(records: &[u8], kind: u32) -> bool
    ensures { result ≡ has_kind records.now kind (length records.now / 64) }
{
    let mut found = false;
    for k in 0..records.len() / ROW {
        found = u32_at(records, ROW * k) == kind || found;
    }
    found
}

/// How many relocations of fields stay as they were compiled; none where they can't be counted.
fn fields_in(alloc: Global, own: &[u8], section: &[u8], as_compiled: bool) -> u32
    ensures { IsFieldCount own.now section.now as_compiled result }
{
    match fields_as_compiled(alloc, own, section, as_compiled) {
        Ok(fields) => fields,
        Err(_) => 0,
    }
}

/// The code that is reached; none where that isn't known.
fn code_in(alloc: Global, own: &[u8], section: &[u8], entry: &[u8]) -> Vec<u8>
    ensures { IsCode own.now section.now entry.now result.items }
{
    match reached_code(alloc, own, section, entry) {
        Ok(code) => code,
        Err(_) => Vec::new(alloc),
    }
}

/// The records of the maps; none where they aren't known.
fn records_in(alloc: Global, own: &[u8], section: &[u8]) -> Vec<u8>
    ensures { AreRecords own.now section.now result.items }
{
    match own_records(alloc, own, section) {
        Ok(records) => records,
        Err(_) => Vec::new(alloc),
    }
}

/// Those, where there are rows to be looked up.
fn records_for(alloc: Global, rows: &[u8], own: &[u8], section: &[u8]) -> Vec<u8>
    ensures { AreRecordsFor rows.now own.now section.now result.items }
{
    if rows.is_empty() {
        Vec::new(alloc)
    } else {
        records_in(alloc, own, section)
    }
}

/// The code, where there are rows to be looked up.
fn code_for(alloc: Global, rows: &[u8], own: &[u8], target: &Target<'_>) -> Vec<u8>
    ensures { IsCodeFor rows.now own.now target.now.section.now target.now.entry.now result.items }
{
    if rows.is_empty() {
        Vec::new(alloc)
    } else {
        code_in(alloc, own, target.section, target.entry)
    }
}

/// What there is to say of the program of FILE, an object, to which this library was linked by itself:
/// an empty one where none was. Nothing is said of one whose own object isn't made.
///
/// Takes time in proportion to the length of FILE for each map and each program, and of the table of
/// the library's sections.
pub fn notes_of<'a>(alloc: Global, file: &[u8], target: &Target<'_>, library: &'a [u8]) -> Notes<'a>
    ensures { AreNotes target.now file.now library.now result }
{
    let rows = named_bytes(library, TABLE);
    match own_object(alloc, file, target) {
        Ok(own) => Notes {
            fields: fields_in(alloc, own.as_slice(), target.section, target.as_compiled),
            code: code_for(alloc, rows, own.as_slice(), target),
            records: records_for(alloc, rows, own.as_slice(), target.section),
            rows,
        },
        Err(_) => Notes {
            fields: 0,
            code: Vec::new(alloc),
            records: Vec::new(alloc),
            rows,
        },
    }
}
