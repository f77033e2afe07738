//! The BTF in which a map has so many entries.
ghost use Rattle.std.specs.Prelude.{◌≡◌, ◌≤◌, ◌<◌, ◌+◌, ◌*◌, IfErr, IfOk, IfSome, ◌⊎◌, length};
ghost use Rattle.bpf_link.specs.declared.fault.LinkFault.TheVariants.{Memory};
ghost use Rattle.bpf_counts.specs.Counted.{HasManyRecords};
ghost use Rattle.bpf_counts.specs.Btf.{btf_of, btf_with, entry_words, header_words, number_words, section_words, struct_words, types_with, variable_words, with_definition, with_names, with_numbers, with_own_names, with_section};

use crate::walk::{Walk, listed_at};
use crate::words::{narrow, with_name, with_words};
use bpf_btf::MapDescription;
use bpf_link::{LinkFault, with};
use std::alloc::Global;

/// The words of a number's types.
fn number_words(id: usize, n: u32) -> [u32; 9]
    ensures { result ≡ number_words id n }
{
    [0, 0x300_0000, 0, 0, 0, n, 0, 0x200_0000, narrow(id, 0)]
}

/// The words of a map's struct.
fn struct_words(first: usize, at: usize) -> [u32; 15]
    ensures { result ≡ struct_words first at }
{
    [
        0,
        0x400_0004,
        32,
        narrow(at, 0),
        narrow(first, 1),
        0,
        narrow(at, 5),
        narrow(first, 3),
        64,
        narrow(at, 14),
        narrow(first, 5),
        128,
        narrow(at, 25),
        narrow(first, 7),
        192,
    ]
}

/// The words of a map's variable.
fn variable_words(first: usize, at: usize) -> [u32; 4]
    ensures { result ≡ variable_words first at }
{
    [narrow(at, 43), 0xe00_0000, narrow(first, 8), 1]
}

/// The words with which the section of maps begins.
fn section_words(at: usize, count: u32) -> [u32; 3]
    requires { count ≤ 65535 }
    ensures { result ≡ section_words at count }
{
    [narrow(at, 37), 0xf00_0000 + count, 0]
}

/// The words with which it ends.
fn entry_words(first: usize) -> [u32; 3]
    ensures { result ≡ entry_words first }
{
    [narrow(first, 9), 0, 32]
}

/// The words with which a section `.BTF` begins.
fn header_words(types: usize, strings: usize) -> [u32; 6]
    ensures { result ≡ header_words types strings }
{
    let types = narrow(types, 0);
    [0x1_eb9f, 24, 0, types, types, narrow(strings, 0)]
}

/// Types with the numbers of a map.
fn with_numbers(
    types: Vec<u8>,
    first: usize,
    said: &MapDescription,
    count: u32,
) -> Result<Vec<u8>, LinkFault>
    requires { first ≤ 4611686018427387904 }
    ensures ok { IfOk result (λ new. new.items ≡ with_numbers types.items first said.now count) }
    ensures err { IfErr result (λ fault. fault ≡ Memory) }
{
    let kind = match with_words(types, &number_words(first, said.kind)) {
        Ok(kind) => kind,
        Err(fault) => return Err(fault),
    };
    let key = match with_words(kind, &number_words(first + 2, said.key_size)) {
        Ok(key) => key,
        Err(fault) => return Err(fault),
    };
    let value = match with_words(key, &number_words(first + 4, said.value_size)) {
        Ok(value) => value,
        Err(fault) => return Err(fault),
    };
    with_words(value, &number_words(first + 6, count))
}

/// Types with the definition of a map.
fn with_definition(
    types: Vec<u8>,
    first: usize,
    at: usize,
    said: &MapDescription,
    count: u32,
) -> Result<Vec<u8>, LinkFault>
    requires { first ≤ 4611686018427387904 }
    ensures ok { IfOk result (λ new.
        new.items ≡ with_definition types.items first at said.now count) }
    ensures err { IfErr result (λ fault. fault ≡ Memory) }
{
    let numbers = match with_numbers(types, first, said, count) {
        Ok(numbers) => numbers,
        Err(fault) => return Err(fault),
    };
    match with_words(numbers, &struct_words(first, at)) {
        Ok(defined) => with_words(defined, &variable_words(first, at)),
        Err(fault) => Err(fault),
    }
}

/// Types with a section of maps that lists one more.
fn with_section(
    types: Vec<u8>,
    first: usize,
    at: usize,
    listed: &[u8],
) -> Result<Vec<u8>, LinkFault>
    requires { length listed.now < 786420 }
    ensures ok { IfOk result (λ new. new.items ≡ with_section types.items first at listed.now) }
    ensures err { IfErr result (λ fault. fault ≡ Memory) }
{
    let count = (listed.len() / 12) as u32 + 1;
    let begun = match with_words(types, &section_words(at, count)) {
        Ok(begun) => begun,
        Err(fault) => return Err(fault),
    };
    match with(begun, listed) {
        Ok(all) => with_words(all, &entry_words(first)),
        Err(fault) => Err(fault),
    }
}

/// The types of an object, and behind them those that define a map once more.
fn types_with(
    alloc: Global,
    types: &[u8],
    strings: &[u8],
    walk: &Walk,
    said: &MapDescription,
    count: u32,
) -> Result<Vec<u8>, LinkFault>
    requires few { 12 * walk.now.count ≤ length types.now }
    requires maps { IfSome walk.now.maps (λ at. at + 12 ≤ length types.now) }
    ensures ok { IfOk result (λ new.
        new.items ≡ types_with types.now strings.now walk.now said.now count) }
    ensures err { IfErr result (λ fault. (fault ≡ Memory) ⊎ HasManyRecords types.now walk.now fault) }
{
    let listed = listed_at(types, walk.maps);
    if listed.len() >= 786_420 {
        return Err(LinkFault::ManyRecords);
    }
    let first = walk.count + 1;
    let own = match Vec::from_slice(alloc, types) {
        Ok(own) => own,
        Err(_) => return Err(LinkFault::Memory),
    };
    match with_definition(own, first, strings.len(), said, count) {
        Ok(defined) => with_section(defined, first, strings.len(), listed),
        Err(fault) => Err(fault),
    }
}

/// Strings with those of a map's definition but its name.
fn with_own_names(strings: Vec<u8>) -> Result<Vec<u8>, LinkFault>
    ensures ok { IfOk result (λ new. new.items ≡ with_own_names strings.items) }
    ensures err { IfErr result (λ fault. fault ≡ Memory) }
{
    let kind = match with_name(strings, b"type") {
        Ok(kind) => kind,
        Err(fault) => return Err(fault),
    };
    let key = match with_name(kind, b"key_size") {
        Ok(key) => key,
        Err(fault) => return Err(fault),
    };
    let value = match with_name(key, b"value_size") {
        Ok(value) => value,
        Err(fault) => return Err(fault),
    };
    match with_name(value, b"max_entries") {
        Ok(entries) => with_name(entries, b".maps"),
        Err(fault) => Err(fault),
    }
}

/// The strings of an object, and behind them those that define a map once more.
fn names_with(alloc: Global, strings: &[u8], name: &[u8]) -> Result<Vec<u8>, LinkFault>
    ensures ok { IfOk result (λ new. new.items ≡ with_names strings.now name.now) }
    ensures err { IfErr result (λ fault. fault ≡ Memory) }
{
    let own = match Vec::from_slice(alloc, strings) {
        Ok(own) => own,
        Err(_) => return Err(LinkFault::Memory),
    };
    match with_own_names(own) {
        Ok(named) => with_name(named, name),
        Err(fault) => Err(fault),
    }
}

/// A section `.BTF` of types and strings.
fn btf_of(alloc: Global, types: &[u8], strings: &[u8]) -> Result<Vec<u8>, LinkFault>
    ensures ok { IfOk result (λ new. new.items ≡ btf_of types.now strings.now) }
    ensures err { IfErr result (λ fault. fault ≡ Memory) }
{
    let begun = match with_words(Vec::new(alloc), &header_words(types.len(), strings.len())) {
        Ok(begun) => begun,
        Err(fault) => return Err(fault),
    };
    match with(begun, types) {
        Ok(typed) => with(typed, strings),
        Err(fault) => Err(fault),
    }
}

/// The section `.BTF` of these types and strings in which the map of a name has so many entries.
pub fn btf_with(
    alloc: Global,
    types: &[u8],
    strings: &[u8],
    walk: &Walk,
    said: &MapDescription,
    name: &[u8],
    count: u32,
) -> Result<Vec<u8>, LinkFault>
    requires few { 12 * walk.now.count ≤ length types.now }
    requires maps { IfSome walk.now.maps (λ at. at + 12 ≤ length types.now) }
    ensures ok { IfOk result (λ new.
        new.items ≡ btf_with types.now strings.now walk.now said.now name.now count) }
    ensures err { IfErr result (λ fault. (fault ≡ Memory) ⊎ HasManyRecords types.now walk.now fault) }
{
    let all = match types_with(alloc, types, strings, walk, said, count) {
        Ok(all) => all,
        Err(fault) => return Err(fault),
    };
    match names_with(alloc, strings, name) {
        Ok(names) => btf_of(alloc, all.as_slice(), names.as_slice()),
        Err(fault) => Err(fault),
    }
}
