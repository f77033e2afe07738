//! A section `.BTF` that was read.
ghost use Rattle.std.specs.Prelude.{◌≡◌, ◌≤◌, ◌<◌, ◌+◌, IfOk, IfErr, IfSome, length, Ok, Err, slice_index_or};
ghost use Rattle.bpf_btf.specs.Layout.{array_entry, btf_header, is_called, member_entry};
ghost use Rattle.bpf_btf.specs.Contexts.{takes};
ghost use Rattle.bpf_btf.specs.CoreRelocations.{AreRelocations, IsExtFault};
ghost use Rattle.bpf_btf.specs.Maps.{map_description, map_shape, member_at, value_type, variable_at, variable_of};
ghost use Rattle.bpf_btf.specs.Sizes.{size_of};
ghost use Rattle.bpf_isa.specs.Maps.{IsShape};
ghost use Rattle.bpf_isa.specs.Words.{u32_at};
ghost use Rattle.bpf_btf.specs.Sections.{header_of, types_in, strings_in, IsRead, IsReadFault};
ghost use Rattle.bpf_btf.specs.Types.{start_of, type_of, AreTypes, HasBadType};
ghost use Rattle.bpf_btf.specs.declared.fault.BtfFault.TheVariants.{Memory};

use crate::contexts::takes;
use crate::core_relocations::{CoreRelocations, relocations_of};
use crate::fault::BtfFault;
use crate::fields::{is_called, u32_at};
use crate::layout::{
    ArrayEntry, BtfHeader, MemberEntry, TypeEntry, array_entry, btf_header, member_entry,
    type_entry,
};
use crate::maps::{MapDescription, map_description, map_shape, value_type, variable_of};
use crate::sizes::size_of;
use crate::types::starts_of;
use bpf_isa::MapShape;
use std::alloc::Global;
use std::marker::Model;

/// The types and strings of a section `.BTF`. Contracts see its bytes, and where the types stand.
#[derive(Drop)]
pub struct Btf<'a> {
    types: &'a [u8],
    strings: &'a [u8],
    starts: Vec<u32>,
}

impl<'a> Model for Btf<'a> {
    ghost use Rattle.std.specs.Prelude.{◌≤◌, length};
    ghost use Rattle.bpf_btf.specs.Types.{Types};

    ghost Value = { Types };

    ghost view = { λ b. record { bytes = b.types.now; strings = b.strings.now; starts = b.starts.items } };

    ghost invariant = { λ b. length b.types.now ≤ 4294967295 };
}

/// The header of a section, whose types and strings lie in it.
fn header_of(bytes: &[u8]) -> Result<BtfHeader, BtfFault>
    ensures value { result ≡ header_of bytes.now (btf_header bytes.now) }
    ensures types { IfOk result (λ header.
        header.size + header.types_at + header.types_size ≤ length bytes.now) }
    ensures strings { IfOk result (λ header.
        header.size + header.strings_at + header.strings_size ≤ length bytes.now) }
{
    if bytes.len() < 24 {
        return Err(BtfFault::NoBtf);
    }
    let header = btf_header(bytes);
    if header.magic != 0xeb9f {
        return Err(BtfFault::NoBtf);
    }
    if header.version != 1 {
        return Err(BtfFault::Version);
    }
    if header.size < 24 {
        return Err(BtfFault::Header);
    }
    let size = bytes.len() as u64;
    let types = u64::from(header.size) + u64::from(header.types_at);
    if types + u64::from(header.types_size) > size {
        return Err(BtfFault::Header);
    }
    let strings = u64::from(header.size) + u64::from(header.strings_at);
    if strings + u64::from(header.strings_size) > size {
        return Err(BtfFault::Header);
    }
    Ok(header)
}

/// The types among the bytes of a section.
fn types_in<'a>(bytes: &'a [u8], header: &BtfHeader) -> &'a [u8]
    requires { header.now.size + header.now.types_at + header.now.types_size ≤ length bytes.now }
    ensures value { result.now ≡ types_in bytes.now header.now }
    ensures length { length result.now ≡ header.now.types_size }
{
    let at = header.size as usize + header.types_at as usize;
    &bytes[at..at + header.types_size as usize]
}

/// The strings among the bytes of a section.
fn strings_in<'a>(bytes: &'a [u8], header: &BtfHeader) -> &'a [u8]
    requires { header.now.size + header.now.strings_at + header.now.strings_size ≤ length bytes.now }
    ensures { result.now ≡ strings_in bytes.now header.now }
{
    let at = header.size as usize + header.strings_at as usize;
    &bytes[at..at + header.strings_size as usize]
}

impl<'a> Btf<'a> {
    /// Reads a section `.BTF`, in time in proportion to its length.
    ///
    /// Takes memory for the places of its types: at most two thirds of the bytes that these have.
    pub fn read(alloc: Global, bytes: &'a [u8]) -> Result<Btf<'a>, BtfFault>
        ensures ok { IfOk result (λ types. IsRead bytes.now types) }
        ensures err { IfErr result (IsReadFault bytes.now) }
    {
        let header = match header_of(bytes) {
            Ok(header) => header,
            Err(fault) => return Err(fault),
        };
        let types = types_in(bytes, &header);
        let strings = strings_in(bytes, &header);
        match starts_of(alloc, types) {
            Ok(starts) => Ok(Btf {
                types,
                strings,
                starts,
            }),
            Err(fault) => Err(fault),
        }
    }

    /// The shape of the map of a name, which the machine may have.
    ///
    /// The map is the variable of that name in `.maps`, and its type, a struct, says what it is: an
    /// array or a per-CPU array by `type`, with keys of 4 bytes by `key_size` or `key`, values by
    /// `value_size` or `value`, and entries by `max_entries`. The name has at most 255 bytes
    /// (`LongName`). Takes time in proportion to the length of the section.
    pub fn map_shape(&self, name: &[u8]) -> Result<MapShape, BtfFault>
        ensures value { result ≡ map_shape self.now name.now }
        ensures possible { IfOk result IsShape }
    {
        map_shape(self, name)
    }

    /// What is said of the map of a name, whatever its kind: its kind, the sizes of its keys and
    /// values, and its most entries, found as `map_shape` finds them; 0 is what isn't said. The name
    /// has at most 255 bytes (`LongName`). Takes time in proportion to the length of the section.
    pub fn map_description(&self, name: &[u8]) -> Result<MapDescription, BtfFault>
        ensures { result ≡ map_description self.now name.now }
    {
        map_description(self, name)
    }

    /// How many relocations of fields a section `.BTF.ext` lists for the section of code of a name,
    /// and the place of the first.
    ///
    /// Takes time in proportion to the length of `ext`, and to that of the name for each section of
    /// code that it names.
    pub fn core_relocations(&self, ext: &[u8], name: &[u8]) -> Result<CoreRelocations, BtfFault>
        ensures ok { IfOk result (AreRelocations self.now.strings ext.now name.now) }
        ensures err { IfErr result (IsExtFault ext.now) }
    {
        relocations_of(self.strings, ext, name)
    }

    /// Whether the function of a name takes the kernel's own struct of a packet that is called `of`,
    /// `xdp_md` or `__sk_buff`: whether its first parameter is a pointer to one whose member `data`
    /// has 4 bytes.
    ///
    /// The last function of the name counts; one of a name of more than 255 bytes takes none. Takes
    /// time in proportion to the length of the section.
    pub fn takes(&self, of: &[u8], name: &[u8]) -> bool
        ensures { result ≡ takes self.now of.now name.now }
    {
        takes(self, of, name)
    }

    /// The type of the values of the map of a name: what the member `value` of its definition points
    /// to. None where it has no such member, and of a name of more than 255 bytes. Takes time in
    /// proportion to the length of the section.
    pub fn value_type(&self, name: &[u8]) -> Option<usize>
        ensures { result ≡ value_type self.now name.now }
    {
        value_type(self, name)
    }

    /// The index of the last variable of a name in a section of variables.
    pub fn variable_of(&self, name: &[u8], section: usize) -> Option<usize>
        ensures value { result ≡ variable_of self.now name.now section }
        ensures below { IfSome result (λ i. i < 65536) }
    {
        variable_of(self, name, section)
    }

    /// How many bytes a type has, behind at most 32 names, qualifiers and arrays. None where it has
    /// no size.
    pub fn size_of(&self, id: usize) -> Option<u32>
        ensures { result ≡ size_of self.now id }
    {
        size_of(self, id)
    }

    /// The names of types and members, each with a zero behind it.
    pub fn strings(&self) -> &'a [u8]
        ensures { result.now ≡ self.now.strings }
    {
        self.strings
    }

    /// How many types there are.
    pub fn len(&self) -> usize
        ensures { result ≡ length self.now.starts }
    {
        self.starts.len()
    }

    /// Where the type of a number stands; behind all others where there is none.
    fn start_of(&self, id: usize) -> usize
        ensures value { result ≡ start_of self.now id }
        ensures small { result ≤ 4294967295 }
    {
        if id == 0 {
            return self.types.len();
        }
        match self.starts.get(id - 1) {
            Some(start) => *start as usize,
            None => self.types.len(),
        }
    }

    /// How the type of a number begins.
    pub fn type_of(&self, id: usize) -> TypeEntry
        ensures value { result ≡ type_of self.now id }
        ensures few { result.count < 65536 }
    {
        type_entry(self.types, self.start_of(id))
    }

    /// What the array of a number is of.
    pub fn array_of(&self, id: usize) -> ArrayEntry
        ensures { result ≡ array_entry self.now.bytes (start_of self.now id + 12) }
    {
        array_entry(self.types, self.start_of(id) + 12)
    }

    /// The member of a struct by its index.
    pub fn member_at(&self, definition: usize, i: usize) -> MemberEntry
        requires { i < 65536 }
        ensures { result ≡ member_at self.now definition i }
    {
        member_entry(self.types, self.start_of(definition) + 12 + 12 * i)
    }

    /// The number of the type that is the variable of a section by its index.
    pub fn variable_at(&self, section: usize, i: usize) -> usize
        requires { i < 65536 }
        ensures { result ≡ variable_at self.now section i }
    {
        u32_at(self.types, self.start_of(section) + 12 + 12 * i) as usize
    }

    /// The number in the four bytes that stand so far behind the beginning of a type.
    pub fn number_at(&self, id: usize, behind: usize) -> u32
        requires { behind < 4294967296 }
        ensures { result ≡ u32_at self.now.bytes (start_of self.now id + behind) }
    {
        u32_at(self.types, self.start_of(id) + behind)
    }

    /// The type of the first parameter of functions of a type.
    pub(crate) fn parameter_of(&self, id: usize) -> usize
        ensures { result ≡ u32_at self.now.bytes (start_of self.now id + 16) }
    {
        u32_at(self.types, self.start_of(id) + 16) as usize
    }

    /// Whether a name stands at a place among the strings.
    pub fn is_called(&self, offset: u32, name: &[u8]) -> bool
        ensures { result ≡ is_called self.now.strings offset name.now }
    {
        is_called(self.strings, offset, name)
    }
}
