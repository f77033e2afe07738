//! What is asked of FILE: a subcommand, and its options.
ghost use Rattle.std.specs.Prelude.{◌≡◌};
ghost use Rattle.bpfdb_options.specs.Asks.{is_context, is_trace, subcommand_for};

use crate::registers::Registers;
use crate::subcommand::Subcommand;
use crate::test_part::TestPart;

/// The most lines of an answer where no number is given.
pub const DEFAULT_LINES: u64 = 1_000;

/// How far an answer about values goes.
#[derive(Clone, Copy)]
pub struct Scope {
    /// The most lines of it, 1 to 1,000,000,000.
    pub lines: u64,
    /// It follows the registers that make addresses, too.
    pub addresses: bool,
}

/// What is asked of a run that is told.
#[derive(Clone, Copy)]
pub struct TraceAsk {
    /// The number of the first step that is shown, 1 to 1,000,000,000.
    pub from: u64,
    /// The most steps that are shown, 1 to 1,000,000,000.
    pub count: u64,
    /// Of these, conditional jumps alone.
    pub only_branches: bool,
    /// How often each instruction runs is told, in place of the steps.
    pub is_profile: bool,
    /// The calls that leave FILE's own code are told, in place of the steps.
    pub is_calls: bool,
    /// The run stops at the first read of the stack where nothing was written since the call.
    pub is_strict: bool,
    /// Steps are told as objects of JSON.
    pub is_json: bool,
}

/// What is asked of a session, besides its replies as they are.
#[derive(Clone, Copy)]
pub struct ConversationAsk {
    /// Lines may ask where a value came from and why a slot was not come to.
    pub asks: bool,
    /// Each reply is a line of JSON, with the number of the script's line that it answers.
    pub is_json: bool,
    /// Behind no edit it stops at the first read of the stack where nothing was written since the call.
    pub is_strict: bool,
}

/// What is asked of values.
#[derive(Clone, Copy)]
pub struct OriginAsk<'a> {
    /// The places, as `r1` or `0x200000000:8`; without them what is of interest where the machine
    /// stands.
    pub what: Option<&'a str>,
    pub scope: Scope,
    /// The branches that decided it are told, too.
    pub tells_branches: bool,
    /// The run ends before the first read of the stack where nothing was written since the call.
    pub is_strict: bool,
}

/// What is asked of slots that a program did not come to.
#[derive(Clone, Copy)]
pub struct WhynotAsk<'a> {
    /// The slots, as `5,7`, or their place in C or in a listing.
    pub what: Option<&'a str>,
    pub scope: Scope,
    /// Where the values came from that decided it is left out.
    pub alone: bool,
    /// The run ends before the first read of the stack where nothing was written since the call.
    pub is_strict: bool,
}

/// What a run is compared with.
#[derive(Clone, Copy)]
pub enum OtherSide {
    /// The run of a second program.
    Program,
    /// The same program's run on a second context.
    Context,
    /// The trace of another machine.
    Trace,
}

impl OtherSide {
    /// Whether it is a trace.
    pub fn is_trace(&self) -> bool
        ensures { result ≡ is_trace self.now }
    {
        match self {
            OtherSide::Trace => true,
            _ => false,
        }
    }

    /// Whether it is a second context.
    pub fn is_context(&self) -> bool
        ensures { result ≡ is_context self.now }
    {
        match self {
            OtherSide::Context => true,
            _ => false,
        }
    }
}

/// What is asked of two runs.
#[derive(Clone, Copy)]
pub struct DiffAsk {
    pub other: OtherSide,
    /// What they leave for one who looks from outside is compared, and not their steps.
    pub compares_writes: bool,
    pub scope: Scope,
    /// Where the values came from that differ is left out.
    pub alone: bool,
}

/// What is asked of a file of tests.
#[derive(Clone, Copy)]
pub struct TestAsk<'a> {
    /// The name of the tests that are run; without it all are.
    pub only: Option<&'a str>,
    /// The part that is shown of the one test that is asked for; without it tests are run.
    pub show: Option<TestPart>,
    /// What ran of the programs is told behind the report on tests.
    pub covers: bool,
    /// What ran of them is told as a tracefile of lcov, and the report stands on standard error.
    pub is_tracefile: bool,
    /// Files that sections of tests name may lie anywhere, and not only in the folder of the tests or
    /// below.
    pub anywhere: bool,
}

/// What is asked of FILE.
#[derive(Clone, Copy)]
pub enum Ask<'a> {
    /// The program's result: it runs to its end, or to the limit of steps.
    Run {
        /// The run stops at the first read of the stack where nothing was written since the call.
        is_strict: bool,
    },
    /// Its run, step by step, or how often each instruction runs, or its calls.
    Trace(TraceAsk),
    /// The replies to a script of commands.
    Debug,
    /// The same, of a script whose lines may ask, or in another form, or of a strict session.
    Conversation(ConversationAsk),
    /// Where a value came from.
    Origin(OriginAsk<'a>),
    /// Why the program did not come to a slot.
    Whynot(WhynotAsk<'a>),
    /// Where two runs part.
    Diff(DiffAsk),
    /// gdb's packets, answered by what it takes for this machine.
    Gdb(Registers),
    /// The words of a listing.
    Asm,
    /// The listing of a program.
    Disasm,
    /// The table of its lines.
    Lines,
    /// Whether the program is accepted.
    Check,
    /// What was made of FILE.
    Load,
    /// The words of an object.
    Link {
        /// The object that is linked is written, and not its program.
        is_joined: bool,
    },
    /// What tests come to.
    Test(TestAsk<'a>),
    /// What cases come to, one after another.
    Batch,
}

impl<'a> Ask<'a> {
    /// The subcommand that asks it.
    pub fn subcommand(&self) -> Subcommand
        ensures { result ≡ subcommand_for self.now }
    {
        match self {
            Ask::Run { .. } => Subcommand::Run,
            Ask::Trace(_) => Subcommand::Trace,
            Ask::Debug => Subcommand::Debug,
            Ask::Conversation(_) => Subcommand::Debug,
            Ask::Origin(_) => Subcommand::Origin,
            Ask::Whynot(_) => Subcommand::Whynot,
            Ask::Diff(_) => Subcommand::Diff,
            Ask::Gdb(_) => Subcommand::Gdb,
            Ask::Asm => Subcommand::Asm,
            Ask::Disasm => Subcommand::Disasm,
            Ask::Lines => Subcommand::Lines,
            Ask::Check => Subcommand::Check,
            Ask::Load => Subcommand::Load,
            Ask::Link { .. } => Subcommand::Link,
            Ask::Test(_) => Subcommand::Test,
            Ask::Batch => Subcommand::Batch,
        }
    }
}
