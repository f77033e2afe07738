//! Tests that share sections.
ghost use Rattle.std.specs.Prelude.{◌≡◌, ◌<◌, ◌==◌, List, get_or, length};
ghost use Rattle.bpf_suite.specs.Tests.{chosen};
ghost use Rattle.bpf_suite.specs.declared.section.Section.{Section};

use crate::section::Section;
use crate::test::Test;
use std::marker::Model;

/// A test's own sections. Contracts see them.
#[derive(Drop)]
pub struct Own<'b, 'a> {
    pub sections: &'b [Section<'a>],
}

impl<'b, 'a> Model for Own<'b, 'a> {
    ghost use Rattle.std.specs.Prelude.{List};
    ghost use Rattle.bpf_suite.specs.declared.section.Section.{Section};

    ghost Value = { List Section };

    ghost view = { λ o. o.sections.now };
}

/// Tests of a file, with the sections that all of them share. Contracts see the sections of each
/// test, its own and behind them the shared ones.
#[derive(Drop)]
pub struct TestList<'b, 'a> {
    pub(crate) own: Vec<Own<'b, 'a>>,
    pub(crate) shared: &'b [Section<'a>],
}

impl<'b, 'a> Model for TestList<'b, 'a> {
    ghost use Rattle.std.specs.Prelude.{List};
    ghost use Rattle.bpf_suite.specs.Files.{with_shared};
    ghost use Rattle.bpf_suite.specs.declared.section.Section.{Section};

    ghost Value = { List (List Section) };

    ghost view = { λ t. with_shared t.shared.now t.own.items };
}

impl<'b, 'a> TestList<'b, 'a> {
    /// How many tests there are.
    pub fn len(&self) -> usize
        ensures { result ≡ length self.now }
    {
        self.own.len()
    }

    /// Whether there are none.
    pub fn is_empty(&self) -> bool
        ensures { result ≡ (length self.now == 0) }
    {
        self.own.is_empty()
    }

    /// The test at a place, counted from 0.
    pub fn at(&self, at: usize) -> Test<'b, 'a>
        requires { at < length self.now }
        ensures { (d : List Section) → result ≡ get_or self.now at d }
    {
        Test {
            own: self.own[at].sections,
            shared: self.shared,
        }
    }
}

/// Keeps the tests of a name alone.
pub fn choose(tests: &mut TestList<'_, '_>, name: &[u8])
    ensures { tests.new ≡ chosen name.now tests.old }
{
    let shared = tests.shared;
    tests.own.retain(|own| {
        let test = Test {
            own: own.sections,
            shared,
        };
        test.is_named(name)
    });
}
