//! Helpers whose calls are answered by a constant.
ghost use Rattle.std.specs.Prelude.{◌≡◌, ◌≤◌, ◌<◌, ◌+◌, ◌*◌, ◌/◌, is_some, length};
ghost use Rattle.bpf_link.specs.Stubs.{answer_of, calls_helper, answer_in, with_move, answered, answers};

use crate::fields::u32_at;
use byteorder::{ByteOrder, LittleEndian};

/// A helper whose calls are answered by a constant.
#[derive(Clone, Copy, Default)]
pub struct Stub {
    /// Its number.
    pub helper: u32,
    /// What r0 becomes: a number of 32 bits in two's complement, extended by its sign.
    pub value: u32,
}

/// The value that answers a helper.
fn answer_of(stubs: &[Stub], helper: u32) -> Option<u32>
    ensures { result ≡ answer_of stubs.now helper }
{
    for stub in stubs {
        if stub.helper == helper {
            return Some(stub.value);
        }
    }
    None
}

/// Whether a helper is answered.
pub fn is_answered(stubs: &[Stub], helper: u32) -> bool
    ensures { result ≡ is_some (answer_of stubs.now helper) }
{
    answer_of(stubs, helper).is_some()
}

/// Whether a slot calls a helper by its number.
pub fn calls_helper(words: &[u8], slot: usize) -> bool
    requires { 8 * slot + 8 ≤ length words.now }
    ensures { result ≡ calls_helper words.now slot }
{
    words[8 * slot] == 0x85 && words[8 * slot + 1] == 0
}

/// What answers the call in a slot.
fn answer_in(stubs: &[Stub], words: &[u8], slot: usize) -> Option<u32>
    requires { 8 * slot + 8 ≤ length words.now }
    ensures { result ≡ answer_in stubs.now words.now slot }
{
    if !calls_helper(words, slot) {
        return None;
    }
    answer_of(stubs, u32_at(words, 8 * slot + 4))
}

/// Words with `mov r0` in a slot, where there is an answer.
fn with_move(mut words: Vec<u8>, slot: usize, answer: Option<u32>) -> Vec<u8>
    requires { 8 * slot + 8 ≤ length words.items }
    ensures value { result.items ≡ with_move words.items slot answer }
    ensures length { length result.items ≡ length words.items }
{
    match answer {
        None => words,
        Some(value) => {
            words[8 * slot] = 0xb7;
            LittleEndian::write_u32(&mut words[8 * slot + 4..8 * slot + 8], value);
            words
        }
    }
}

/// Words with the calls answered.
pub fn answered(stubs: &[Stub], words: Vec<u8>) -> Vec<u8>
    ensures value { result.items ≡ answered stubs.now words.items }
    ensures length { length result.items ≡ length words.items }
{
    let count = words.len() / 8;
    let mut all = words;
    for slot in 0..count {
        let answer = answer_in(stubs, &all, slot);
        all = with_move(all, slot, answer);
    }
    all
}

/// How many calls are answered.
pub fn answers(stubs: &[Stub], words: &[u8]) -> usize
    ensures { result ≡ answers stubs.now words.now }
{
    let mut count = 0;
    for slot in 0..words.len() / 8 {
        if answer_in(stubs, words, slot).is_some() {
            count += 1;
        }
    }
    count
}
