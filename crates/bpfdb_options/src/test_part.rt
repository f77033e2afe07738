//! The parts of a test that can be shown.
ghost use Rattle.std.specs.Prelude.{◌≡◌, IfNone, IfSome};
ghost use Rattle.bpfdb_options.specs.TestParts.{test_part_name};

/// A part of a test that is shown, as a file for `debug`, `origin` and tools of others.
#[derive(Clone, Copy)]
pub enum TestPart {
    /// The words of its program.
    Program,
    /// The bytes of its context.
    Context,
    /// The options that its program needs, one a line.
    Options,
    /// The commands that lead to where its program ends.
    Script,
}

impl TestPart {
    /// The part of this name.
    pub fn named(name: &str) -> Option<TestPart>
        ensures found { IfSome result (λ part. test_part_name part ≡ name.now) }
        ensures none { IfNone result ((part : TestPart) → test_part_name part ≡ name.now → ⊥) }
    {
        match name {
            "program" => Some(TestPart::Program),
            "context" => Some(TestPart::Context),
            "options" => Some(TestPart::Options),
            "script" => Some(TestPart::Script),
            _ => None,
        }
    }
}
