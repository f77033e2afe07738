//! An object: its header, and its table of sections.
ghost use Rattle.std.specs.Prelude.{◌≡◌, ◌≤◌, ◌<◌, ◌+◌, ◌*◌, IfOk, length};
ghost use Rattle.bpf_link.specs.Layout.{file_header};
ghost use Rattle.bpf_link.specs.Objects.{opened, opened_header, opened_table, section_at};

use crate::fault::LinkFault;
use crate::fields::lies;
use crate::layout::{FileHeader, SectionHeader, file_header, section_header};
use std::marker::Model;

/// A relocatable object for BPF. Contracts see its bytes and its sections.
#[derive(Drop)]
pub struct Object<'a> {
    bytes: &'a [u8],
    /// Where the table of sections lies in the file.
    at: usize,
    count: usize,
    /// Where the names of sections begin there.
    names: usize,
}

impl<'a> Model for Object<'a> {
    ghost use Rattle.bpf_link.specs.Objects.{Elf, HasTable, elf};

    ghost Value = { Elf };

    ghost view = { λ o. elf o.bytes.now o.at o.count o.names };

    ghost invariant = { λ o. HasTable o.bytes.now o.at o.count o.names };
}

impl<'a> Object<'a> {
    /// This object once more, for no longer than it is lent.
    pub fn again(&self) -> Object<'_>
        ensures { result ≡ self.now }
    {
        Object {
            bytes: self.bytes,
            at: self.at,
            count: self.count,
            names: self.names,
        }
    }

    /// The bytes of the file.
    pub fn bytes(&self) -> &'a [u8]
        ensures { result.now ≡ self.now.bytes }
    {
        self.bytes
    }

    /// Where the names of its sections begin in the file.
    pub fn names(&self) -> usize
        ensures value { result ≡ self.now.names }
        ensures within { result ≤ length self.now.bytes }
    {
        self.names
    }

    /// How many sections it has.
    pub fn len(&self) -> usize
        ensures { result ≡ length self.now.sections }
    {
        self.count
    }

    /// The header of a section by its index.
    pub fn section(&self, i: usize) -> SectionHeader
        requires { i < length self.now.sections }
        ensures { result ≡ section_at self.now i }
    {
        section_header(self.bytes, self.at + 64 * i)
    }
}

/// The object that stands in a file.
pub fn open(bytes: &[u8]) -> Result<Object<'_>, LinkFault>
    ensures { result ≡ opened bytes.now }
{
    if bytes.len() < 64 {
        return Err(LinkFault::NotElf);
    }
    let header = file_header(bytes);
    opened_header(bytes, &header)
}

fn opened_header<'a>(bytes: &'a [u8], header: &FileHeader) -> Result<Object<'a>, LinkFault>
    ensures { result ≡ opened_header bytes.now header.now }
{
    if header.magic != 0x464c_457f {
        return Err(LinkFault::NotElf);
    }
    if header.class != 2 {
        return Err(LinkFault::Class);
    }
    if header.order != 1 {
        return Err(LinkFault::Order);
    }
    if header.kind != 1 {
        return Err(LinkFault::Kind);
    }
    if header.machine != 247 {
        return Err(LinkFault::Machine);
    }
    opened_table(bytes, header)
}

fn opened_table<'a>(bytes: &'a [u8], header: &FileHeader) -> Result<Object<'a>, LinkFault>
    ensures { result ≡ opened_table bytes.now header.now }
{
    if header.entry_size != 64 {
        return Err(LinkFault::SectionTable);
    }
    if header.sections >= 0xff00 {
        return Err(LinkFault::SectionTable);
    }
    if !lies(bytes, header.sections_at, 64 * u64::from(header.sections)) {
        return Err(LinkFault::SectionTable);
    }
    if header.names >= header.sections {
        return Err(LinkFault::SectionTable);
    }
    let at = header.sections_at as usize;
    let names = section_header(bytes, at + 64 * usize::from(header.names));
    if !lies(bytes, names.offset, 0) {
        return Err(LinkFault::SectionTable);
    }
    Ok(Object {
        bytes,
        at,
        count: usize::from(header.sections),
        names: names.offset as usize,
    })
}
