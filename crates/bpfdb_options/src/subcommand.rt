//! The subcommands.
ghost use Rattle.std.specs.Prelude.{◌≡◌, IfNone, IfSome};
ghost use Rattle.bpfdb_options.specs.Subcommands.{subcommand_name};

/// What is done with FILE.
#[derive(Clone, Copy)]
pub enum Subcommand {
    /// The program runs to its end, or to the limit of steps.
    Run,
    /// A run is told step by step, or how often each instruction runs.
    Trace,
    /// A script of commands is obeyed.
    Debug,
    /// The program runs, and where a value came from is told.
    Origin,
    /// The program runs, and why it did not come to a slot is told.
    Whynot,
    /// Two runs go in step, and where they part is told.
    Diff,
    /// gdb is served.
    Gdb,
    /// A listing is assembled.
    Asm,
    /// A program is written as a listing.
    Disasm,
    /// A listing's table of lines is written.
    Lines,
    /// A program is checked.
    Check,
    /// What was made of FILE is told.
    Load,
    /// An object is linked.
    Link,
    /// The tests of a file are run.
    Test,
    /// Cases are read and run, one after another.
    Batch,
}

impl Subcommand {
    /// The subcommand of this name.
    pub fn named(name: &str) -> Option<Subcommand>
        ensures found { IfSome result (λ subcommand. subcommand_name subcommand ≡ name.now) }
        ensures none { IfNone result ((subcommand : Subcommand) →
            subcommand_name subcommand ≡ name.now → ⊥) }
    {
        match name {
            "run" => Some(Subcommand::Run),
            "trace" => Some(Subcommand::Trace),
            "debug" => Some(Subcommand::Debug),
            "origin" => Some(Subcommand::Origin),
            "whynot" => Some(Subcommand::Whynot),
            "diff" => Some(Subcommand::Diff),
            "gdb" => Some(Subcommand::Gdb),
            "asm" => Some(Subcommand::Asm),
            "disasm" => Some(Subcommand::Disasm),
            "lines" => Some(Subcommand::Lines),
            "check" => Some(Subcommand::Check),
            "load" => Some(Subcommand::Load),
            "link" => Some(Subcommand::Link),
            "test" => Some(Subcommand::Test),
            "batch" => Some(Subcommand::Batch),
            _ => None,
        }
    }
}
