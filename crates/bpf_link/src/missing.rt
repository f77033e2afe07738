//! The helpers of the kernel that words call and the machine doesn't have.
ghost use Rattle.std.specs.Prelude.{◌≡◌, ◌≤◌, ◌+◌, ◌*◌, length};
ghost use Rattle.bpf_link.specs.Missing.{calls, is_called, is_missing, others_in};

use crate::fields::u32_at;
use crate::stubs::calls_helper;
use bpf_isa::Helper;

/// How many numbers the kernel's list of helpers has, from 0 on.
pub const ALL_HELPERS: usize = 212;

/// Whether a slot calls the helper of a number.
fn calls(words: &[u8], helper: u32, slot: usize) -> bool
    requires { 8 * slot + 8 ≤ length words.now }
    ensures { result ≡ calls words.now helper slot }
{
    calls_helper(words, slot) && u32_at(words, 8 * slot + 4) == helper
}

/// Whether words call the helper of a number.
pub fn is_called(words: &[u8], helper: u32) -> bool
    ensures { result ≡ is_called words.now helper }
{
    let mut found = false;
    for slot in 0..words.len() / 8 {
        found = calls(words, helper, slot) || found;
    }
    found
}

/// Whether words call a helper that there isn't, besides another one.
fn is_missing(words: &[u8], first: u32, helper: u32) -> bool
    ensures { result ≡ is_missing words.now first helper }
{
    if helper == first || Helper::of(helper).is_some() {
        return false;
    }
    is_called(words, helper)
}

/// Which of the kernel's helpers, by their numbers, words call that there aren't, besides the first
/// one.
pub fn others_in(words: &[u8], first: u32) -> [bool; ALL_HELPERS]
    ensures { result ≡ others_in words.now first }
{
    let mut others = [false; ALL_HELPERS];
    for helper in 0..ALL_HELPERS {
        others[helper] = is_missing(words, first, helper as u32);
    }
    others
}
