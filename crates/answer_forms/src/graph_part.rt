//! Parts of the machine, by their names.
ghost use Rattle.std.specs.Prelude.{◌≡◌, ◌<◌, IfSome};
ghost use Rattle.answer_forms.specs.Parts as spec;

use crate::behind;
use counted_io::sides;
use input_texts::number_of;

/// A part of the machine as so many places from one on: those that it is where it is read, and
/// those where it is told.
#[derive(Clone, Copy)]
pub struct Part {
    pub first: u64,
    pub read: u16,
    pub told: u16,
}

/// The part with whose name a text begins.
pub fn part_in(text: &[u8]) -> Option<Part>
    ensures { result ≡ spec.part_in text.now }
{
    match behind(b"r", text) {
        Some(rest) => {
            let (name, more) = sides(rest, b' ');
            register_in(name, more)
        }
        None => bytes_in(sides(text, b' ').0),
    }
}

/// The register with this number, at the depth that a text tells.
fn register_in(name: &[u8], rest: &[u8]) -> Option<Part>
    ensures { result ≡ spec.register_in name.now rest.now }
{
    match below(10, name) {
        Some(number) => match depth_in(rest) {
            Some(depth) => Some(Part {
                first: 8 * number + depth,
                read: 1,
                told: 8 - depth as u16,
            }),
            None => None,
        },
        None => None,
    }
}

/// The depth that stands behind a register, 0 where none does.
fn depth_in(text: &[u8]) -> Option<u64>
    ensures value { result ≡ spec.depth_in text.now }
    ensures below { IfSome result (λ depth. depth < 8) }
{
    match behind(b"at depth ", text) {
        Some(rest) => below(8, sides(rest, b' ').0),
        None => Some(0),
    }
}

/// The bytes that have a name.
fn bytes_in(name: &[u8]) -> Option<Part>
    ensures { result ≡ spec.bytes_in name.now }
{
    let (address, len) = sides(name, b':');
    match number_of(address) {
        Some(first) => match below(513, len) {
            Some(len) => Some(Part {
                first,
                read: len as u16,
                told: len as u16,
            }),
            None => None,
        },
        None => None,
    }
}

/// The number that a text is, if it is below a limit.
fn below(limit: u64, text: &[u8]) -> Option<u64>
    ensures value { result ≡ spec.below limit text.now }
    ensures below { IfSome result (λ n. n < limit) }
{
    match number_of(text) {
        Some(number) => { if number < limit { Some(number) } else { None } }
        None => None,
    }
}
