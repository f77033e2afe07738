//! From the words of a command line to a plan.
ghost use Rattle.std.specs.Prelude.{◌≡◌, ◌≤◌, ◌<◌, IfErr, IfNone, IfOk, IfSome, OnErr, OnOk, OnSome, Some, List, Bool, codes, length, map, option_map, true};
ghost use Rattle.clap.specs.Words.{Row, Text, first_of, found_of, rows_of, subcommand_rows_of};
ghost use Rattle.bpfdb_limits.specs.Limits.{IsLimit};
ghost use Rattle.bpfdb_cli.specs.Scaffolding.{AskAlike};
ghost use Rattle.bpfdb_cli.specs.Plans.{Aims, AreInRange, Chooses, HasKindIfTold, IsFaultOf, IsPlan, IsPlanOf, NamesFields, NamesStruct, Says, Tells, form_in, given_or, go_together, is_object, most_texts, other_in, turns_in};

use crate::asked::ask_in;
use crate::command_line::command_line;
use crate::misfit::{asks_of_link, has_one_entry, misfit_in};
use crate::plans::{EntryTakes, Form, MOST_TEXTS, Plan, PlanFault, TargetWords};
use crate::values::{is_given, limit_or, number_in, number_or, text_of, texts_of};
use arrayvec::ArrayVec;
use bpf_packet::Packet;
use bpfdb_limits::{DEFAULT_JOURNAL, DEFAULT_LIMIT};
use bpfdb_options::{Options, Subcommand};
use clap::error::ErrorKind;
use clap::{ArgMatches, Command, Error};
use std::alloc::Global;

/// What is said of a name that `--registers` doesn't take. It would be said of a number, too, that
/// `clap` lets pass out of its range: it lets none pass, which isn't drawn from its contract here.
const BAD_VALUE: &str = "a value is none of those that its option takes";

const MANY_OBJECTS: &str = "the argument '--with <OBJECT>' is used more than 16 times";

const MANY_ENTRIES: &str = "the argument '--entry <NAME>' is used more than 16 times";

const MANY_COUNTS: &str = "the argument '--entries <NAME=N>' is used more than 16 times";

/// The plan of a command line, of which the first word is the program's name.
pub fn plan<'a>(alloc: Global, words: &'a [&'a str]) -> Result<Plan<'a>, PlanFault>
    ensures value { IfOk result (IsPlan (map (λ word. word.now) words.now)) }
    ensures limit { IfOk result (λ plan. IsLimit plan.options.limit) }
    ensures fault { IfErr result (IsFaultOf (map (λ word. word.now) words.now)) }
{
    let mut command = match command_line(alloc) {
        Ok(command) => command,
        Err(_) => return Err(PlanFault::Memory),
    };
    let matches = match command.try_get_matches_from_mut(asked_of(words)) {
        Ok(matches) => matches,
        Err(error) => return Err(told_by(error)),
    };
    match plan_of(&matches) {
        Ok(plan) => Ok(plan),
        Err(why) => Err(no_plan(&mut command, why)),
    }
}

/// The words that `clap` is asked: all of them; but behind `help`, which takes no option there, none
/// from the first one on that asks for help. So `bpfdb help run --help` is `bpfdb help run`.
fn asked_of<'a>(words: &'a [&'a str]) -> &'a [&'a str]
    ensures { AskAlike (map (λ word. word.now) words.now) (map (λ word. word.now) result.now) }
{
    if words.len() < 2 {
        return words;
    }
    if words[1] != "help" {
        return words;
    }
    let behind = &words[2..];
    match behind
        .iter()
        .position(|word| *word == "--help" || *word == "-h")
    {
        Some(at) => &words[..2 + at],
        None => words,
    }
}

/// What is told of an error of `clap`.
fn told_by(error: Error) -> PlanFault
    ensures { Tells error result }
{
    match error.kind() {
        ErrorKind::OutOfMemory => PlanFault::Memory,
        _ => PlanFault::Usage(error),
    }
}

/// The fault of words that are no plan though `clap` takes them.
fn no_plan(command: &mut Command<'_>, why: &str) -> PlanFault
    ensures { HasKindIfTold ErrorKind.ValueValidation result }
{
    match command.error(ErrorKind::ValueValidation, why) {
        Ok(error) => PlanFault::Usage(error),
        Err(_) => PlanFault::Memory,
    }
}

/// The plan of the words' matches, or why there is none.
fn plan_of<'a>(matches: &ArgMatches<'a>) -> Result<Plan<'a>, &'static str>
    ensures value { IfOk result (λ plan. (name : Text) × (rows : List Row)
        × (subcommand_rows_of matches.now ≡ Some (name, rows)) × Says name rows plan
        × (go_together name rows ≡ true)) }
    ensures none { OnErr result ((name : Text) (rows : List Row) (plan : Plan)
        → subcommand_rows_of matches.now ≡ Some (name, rows) → IsPlanOf name rows plan → ⊥) }
    ensures limit { IfOk result (λ plan. IsLimit plan.options.limit) }
{
    match matches.subcommand() {
        Some((name, found)) => match plan_in(name, found) {
            Ok(plan) => Ok(plan),
            Err(why) => Err(why),
        },
        None => Err(BAD_VALUE),
    }
}

/// The plan of a subcommand's matches, or why there is none.
fn plan_in<'a>(name: &'a str, found: &ArgMatches<'a>) -> Result<Plan<'a>, &'static str>
    ensures value { IfOk result (Says name.now (rows_of (found_of found.now))) }
    ensures fits { OnOk result (go_together name.now (rows_of (found_of found.now)) ≡ true) }
    ensures none { OnErr result ((plan : Plan) →
        IsPlanOf name.now (rows_of (found_of found.now)) plan → ⊥) }
    ensures limit { IfOk result (λ plan. IsLimit plan.options.limit) }
{
    let Some(subcommand) = Subcommand::named(name) else {
        return Err(BAD_VALUE);
    };
    let Some(file) = text_of(found, "file") else {
        return Err(BAD_VALUE);
    };
    let Some(ask) = ask_in(subcommand, found) else {
        return Err(BAD_VALUE);
    };
    let Some(options) = options_in(found) else {
        return Err(BAD_VALUE);
    };
    let Some(packet) = number_in(text_of(found, "packet")) else {
        return Err(BAD_VALUE);
    };
    let Some(other_packet) = number_in(text_of(found, "other-packet")) else {
        return Err(BAD_VALUE);
    };
    match misfit_in(name, found) {
        Some(why) => return Err(why),
        None => {}
    }
    let target = match target_in(found) {
        Ok(target) => target,
        Err(why) => return Err(why),
    };
    Ok(Plan {
        ask,
        file,
        memory: text_of(found, "mem"),
        packet,
        other: other_of(found),
        other_packet,
        output: text_of(found, "output"),
        target,
        options,
        form: form_in(found),
    })
}

/// How what is printed is told.
fn form_in(found: &ArgMatches<'_>) -> Form
    ensures { result ≡ form_in (rows_of (found_of found.now)) }
{
    if is_given(found, "json") {
        Form::Json
    } else if is_given(found, "dot") {
        Form::Dot
    } else {
        Form::Lines
    }
}

/// What a subcommand's matches say of FILE and of the program that runs, or why they don't.
fn target_in<'a>(found: &ArgMatches<'a>) -> Result<TargetWords<'a>, &'static str>
    ensures value { IfOk result (Aims (rows_of (found_of found.now))) }
    ensures none { OnErr result ((target : TargetWords) →
        Aims (rows_of (found_of found.now)) target → ⊥) }
{
    let Some(takes) = takes_of(text_of(found, "struct")) else {
        return Err(BAD_VALUE);
    };
    let Some(strict_fields) = is_strict(text_of(found, "fields")) else {
        return Err(BAD_VALUE);
    };
    let Some(with) = texts_of(found, "with") else {
        return Err(MANY_OBJECTS);
    };
    let Some(turns) = turns_of(found) else {
        return Err(MANY_ENTRIES);
    };
    let Some(counts) = texts_of(found, "entries") else {
        return Err(MANY_COUNTS);
    };
    Ok(TargetWords {
        is_words: is_given(found, "words"),
        is_listing: is_given(found, "listing"),
        is_object: is_object(found),
        maps: text_of(found, "maps"),
        section: text_of(found, "section"),
        entry: text_of(found, "entry"),
        stubs: text_of(found, "helper"),
        strict_fields,
        takes,
        with,
        turns,
        counts,
        no_linux: is_given(found, "no-linux"),
        is_faithful: is_given(found, "faithful"),
    })
}

/// Whether FILE is said to be an object, or something is asked of its link.
fn is_object(found: &ArgMatches<'_>) -> bool
    ensures { result ≡ is_object (rows_of (found_of found.now)) }
{
    is_given(found, "object") || asks_of_link(found)
}

/// What the entry takes by this name; nothing is said without one. None where nothing has the name.
fn takes_of(text: Option<&str>) -> Option<EntryTakes>
    ensures found { IfSome result (NamesStruct (option_map (λ t. t.now) text.entry)) }
    ensures none { IfNone result ((takes : EntryTakes) →
        NamesStruct (option_map (λ t. t.now) text.entry) takes → ⊥) }
{
    match text {
        None => Some(EntryTakes::Unsaid),
        Some("none") => Some(EntryTakes::Context),
        Some(text) => match Packet::named(text) {
            Some(packet) => Some(EntryTakes::Struct(packet)),
            None => None,
        },
    }
}

/// Whether fields may not stay as they were compiled; they may without a word. None where it is
/// another one.
fn is_strict(text: Option<&str>) -> Option<bool>
    ensures found { IfSome result (NamesFields (option_map (λ t. t.now) text.entry)) }
    ensures none { IfNone result ((strict : Bool) →
        NamesFields (option_map (λ t. t.now) text.entry) strict → ⊥) }
{
    match text {
        None => Some(false),
        Some("strict") => Some(true),
        Some("compiled") => Some(false),
        Some(_) => None,
    }
}

/// The programs in turn: none where there is one. None where they are too many.
fn turns_of<'a>(found: &ArgMatches<'a>) -> Option<ArrayVec<&'a str, MOST_TEXTS>>
    ensures found { IfSome result (λ turns. map (λ text. text.now) turns.items
        ≡ turns_in (rows_of (found_of found.now))) }
    ensures few { OnSome result (length (turns_in (rows_of (found_of found.now))) ≤ most_texts) }
    ensures none { IfNone result (most_texts < length (turns_in (rows_of (found_of found.now)))) }
{
    if has_one_entry(found) {
        return Some(ArrayVec::new());
    }
    texts_of(found, "entry")
}

/// How a program is run, by a subcommand's matches. None where a number is out of its range.
fn options_in<'a>(found: &ArgMatches<'a>) -> Option<Options<'a>>
    ensures value { IfSome result (Chooses (rows_of (found_of found.now))) }
    ensures none { IfNone result (AreInRange (rows_of (found_of found.now)) → ⊥) }
    ensures limit { IfSome result (λ options. IsLimit options.limit) }
{
    let journal = number_or(text_of(found, "journal"), DEFAULT_JOURNAL)?;
    let limit = limit_or(text_of(found, "steps"), DEFAULT_LIMIT)?;
    Some(Options {
        journal,
        regs: text_of(found, "regs"),
        limit,
    })
}

/// The path of the other file: of the script, of the trace, of the second context or of the second
/// program.
fn other_of<'a>(found: &ArgMatches<'a>) -> Option<&'a str>
    ensures { option_map (λ text. text.now) result ≡ other_in (rows_of (found_of found.now)) }
{
    match text_of(found, "script") {
        Some(path) => Some(path),
        None => second_of(found),
    }
}

/// The path of the trace, of the second context, or of the second program.
fn second_of<'a>(found: &ArgMatches<'a>) -> Option<&'a str>
    ensures { option_map (λ text. text.now) result
        ≡ given_or (first_of (codes "trace") (rows_of (found_of found.now)))
        (given_or (first_of (codes "other-mem") (rows_of (found_of found.now)))
        (first_of (codes "other") (rows_of (found_of found.now)))) }
{
    match text_of(found, "trace") {
        Some(path) => Some(path),
        None => match text_of(found, "other-mem") {
            Some(path) => Some(path),
            None => text_of(found, "other"),
        },
    }
}
