//! What a section expects, as it was read.
ghost use Rattle.std.specs.Prelude.{◌≡◌};
ghost use Rattle.std.specs.Option.{option_map};
ghost use Rattle.bpf_suite.specs.Tests.{expectation_of};

use crate::body::{number_of, trimmed};
use crate::kind::Kind;
use crate::section::{Section, Text};

/// An outcome that is expected.
#[derive(Drop)]
pub struct Expectation<'a> {
    /// The kind of its section.
    pub kind: Kind,
    /// The text there, without spaces around it.
    pub text: Text<'a>,
    /// The number that this is, if it is one.
    pub number: Option<u64>,
}

impl<'a> Expectation<'a> {
    /// The bytes of its text.
    pub fn bytes(&self) -> &'a [u8]
        ensures { result.now ≡ self.now.text }
    {
        self.text.bytes
    }
}

/// What a section expects, if there is one.
pub fn expectation_of<'a>(section: Option<Section<'a>>) -> Option<Expectation<'a>>
    ensures { result ≡ option_map expectation_of section.entry }
{
    match section {
        Some(section) => Some(Expectation {
            kind: section.kind,
            text: Text {
                bytes: trimmed(section.body.bytes),
            },
            number: number_of(section.body.bytes),
        }),
        None => None,
    }
}
