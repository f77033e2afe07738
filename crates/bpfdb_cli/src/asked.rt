//! What a subcommand's matches ask of FILE.
ghost use Rattle.std.specs.Prelude.{◌≡◌, IfNone, IfSome, Option, codes, option_map};
ghost use Rattle.clap.specs.Words.{first_of, found_of, rows_of};
ghost use Rattle.bpfdb_cli.specs.Plans.{AreAsked, AreInRange, AsksDiff, AsksOrigin, AsksTests, AsksWhynot, NamesPart, NamesRegisters, Scopes, Traces, side_in};
ghost use Rattle.bpfdb_options.specs.Asks.{subcommand_for};
ghost use Rattle.bpfdb_options.specs.declared.subcommand.Subcommand.TheVariants.{Debug};

use crate::values::{has_text, is_given, limit_or, number_or, text_of};
use bpfdb_limits::GREATEST_COUNT;
use bpfdb_options::{
    Ask, ConversationAsk, DEFAULT_LINES, DiffAsk, OriginAsk, OtherSide, Registers, Scope,
    Subcommand, TestAsk, TestPart, TraceAsk, WhynotAsk,
};
use clap::ArgMatches;

/// What a subcommand's matches ask. None where a number is out of its range, or a name none of those
/// that its option takes.
pub fn ask_in<'a>(subcommand: Subcommand, found: &ArgMatches<'a>) -> Option<Ask<'a>>
    ensures value { IfSome result (AreAsked (rows_of (found_of found.now))) }
    ensures subcommand { IfSome result (λ ask. subcommand_for ask ≡ subcommand) }
    ensures none { IfNone result (AreInRange (rows_of (found_of found.now)) → ⊥) }
{
    let scope = scope_in(found)?;
    let trace = trace_in(found)?;
    let registers = registers_of(text_of(found, "registers"))?;
    let show = part_of(text_of(found, "show"))?;
    Some(match subcommand {
        Subcommand::Run => Ask::Run {
            is_strict: is_given(found, "strict"),
        },
        Subcommand::Trace => Ask::Trace(trace),
        Subcommand::Debug => debug_in(found),
        Subcommand::Origin => Ask::Origin(origin_in(found, scope)),
        Subcommand::Whynot => Ask::Whynot(whynot_in(found, scope)),
        Subcommand::Diff => Ask::Diff(diff_in(found, scope)),
        Subcommand::Gdb => Ask::Gdb(registers),
        Subcommand::Asm => Ask::Asm,
        Subcommand::Disasm => Ask::Disasm,
        Subcommand::Lines => Ask::Lines,
        Subcommand::Check => Ask::Check,
        Subcommand::Load => Ask::Load,
        Subcommand::Link => Ask::Link {
            is_joined: is_given(found, "relocatable"),
        },
        Subcommand::Test => Ask::Test(tests_in(found, show)),
        Subcommand::Batch => Ask::Batch,
    })
}

/// How far an answer goes. None where a number is out of its range.
fn scope_in(found: &ArgMatches<'_>) -> Option<Scope>
    ensures value { IfSome result (Scopes (rows_of (found_of found.now))) }
    ensures none { IfNone result (AreInRange (rows_of (found_of found.now)) → ⊥) }
{
    let lines = limit_or(text_of(found, "lines"), DEFAULT_LINES)?;
    Some(Scope {
        lines,
        addresses: is_given(found, "addresses"),
    })
}

/// Which steps of a run are told. None where a number is out of its range.
fn trace_in(found: &ArgMatches<'_>) -> Option<TraceAsk>
    ensures value { IfSome result (Traces (rows_of (found_of found.now))) }
    ensures none { IfNone result (AreInRange (rows_of (found_of found.now)) → ⊥) }
{
    let from = number_or(text_of(found, "from"), 1)?;
    let count = number_or(text_of(found, "count"), GREATEST_COUNT)?;
    Some(TraceAsk {
        from,
        count,
        only_branches: is_given(found, "branches"),
        is_profile: is_given(found, "profile"),
        is_calls: is_given(found, "calls"),
        is_strict: is_given(found, "strict"),
        is_json: is_given(found, "json"),
    })
}

/// Whether lines of a script may ask, in which form replies are written, and whether it is strict.
fn debug_in<'a>(found: &ArgMatches<'a>) -> Ask<'a>
    ensures value { AreAsked (rows_of (found_of found.now)) result }
    ensures subcommand { subcommand_for result ≡ Debug }
{
    let asked = ConversationAsk {
        asks: is_given(found, "questions"),
        is_json: is_given(found, "json"),
        is_strict: is_given(found, "strict"),
    };
    if asked.asks || asked.is_json || asked.is_strict {
        Ask::Conversation(asked)
    } else {
        Ask::Debug
    }
}

/// Which values are asked about.
fn origin_in<'a>(found: &ArgMatches<'a>, scope: Scope) -> OriginAsk<'a>
    requires { Scopes (rows_of (found_of found.now)) scope }
    ensures { AsksOrigin (rows_of (found_of found.now)) result }
{
    OriginAsk {
        what: text_of(found, "what"),
        scope,
        tells_branches: is_given(found, "branches"),
        is_strict: is_given(found, "strict"),
    }
}

/// Which slots are asked about.
fn whynot_in<'a>(found: &ArgMatches<'a>, scope: Scope) -> WhynotAsk<'a>
    requires { Scopes (rows_of (found_of found.now)) scope }
    ensures { AsksWhynot (rows_of (found_of found.now)) result }
{
    WhynotAsk {
        what: text_of(found, "what"),
        scope,
        alone: is_given(found, "alone"),
        is_strict: is_given(found, "strict"),
    }
}

/// Which runs are asked about.
fn diff_in(found: &ArgMatches<'_>, scope: Scope) -> DiffAsk
    requires { Scopes (rows_of (found_of found.now)) scope }
    ensures { AsksDiff (rows_of (found_of found.now)) result }
{
    DiffAsk {
        other: side_in(found),
        compares_writes: is_given(found, "writes"),
        scope,
        alone: is_given(found, "alone"),
    }
}

/// What the run is compared with.
fn side_in(found: &ArgMatches<'_>) -> OtherSide
    ensures { result ≡ side_in (rows_of (found_of found.now)) }
{
    if has_text(found, "trace") {
        OtherSide::Trace
    } else if has_text(found, "other-mem") {
        OtherSide::Context
    } else {
        OtherSide::Program
    }
}

/// Which tests are asked about, and which part of one.
fn tests_in<'a>(found: &ArgMatches<'a>, show: Option<TestPart>) -> TestAsk<'a>
    requires { NamesPart (first_of (codes "show") (rows_of (found_of found.now))) show }
    ensures { AsksTests (rows_of (found_of found.now)) result }
{
    TestAsk {
        only: text_of(found, "only"),
        show,
        covers: is_given(found, "cover"),
        is_tracefile: is_given(found, "cover-info"),
        anywhere: is_given(found, "anywhere"),
    }
}

/// The machine of this name, the default where none is named.
fn registers_of(text: Option<&str>) -> Option<Registers>
    ensures found { IfSome result (NamesRegisters (option_map (λ t. t.now) text.entry)) }
    ensures none { IfNone result ((registers : Registers) →
        NamesRegisters (option_map (λ t. t.now) text.entry) registers → ⊥) }
{
    match text {
        None => Some(Registers::X86),
        Some(text) => Registers::named(text),
    }
}

/// The part of a test of this name, none where none is named. None where no part has the name.
fn part_of(text: Option<&str>) -> Option<Option<TestPart>>
    ensures found { IfSome result (NamesPart (option_map (λ t. t.now) text.entry)) }
    ensures none { IfNone result ((part : Option TestPart) →
        NamesPart (option_map (λ t. t.now) text.entry) part → ⊥) }
{
    match text {
        None => Some(None),
        Some(text) => match TestPart::named(text) {
            Some(part) => Some(Some(part)),
            None => None,
        },
    }
}
