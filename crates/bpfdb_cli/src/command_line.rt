//! The command line, as `clap` is told of it.
ghost use Rattle.std.specs.Prelude.{◌≡◌, IfOk, false, fold};
ghost use Rattle.clap.specs.Words.{app_of, new_app, rule_of, with_subcommand};
ghost use Rattle.bpfdb_cli.specs.CommandLine.{bare_app, command_app, with_files, with_questions, with_runs, with_subcommands};
ghost use Rattle.bpfdb_cli.specs.Subcommands.{count_rule_of, entry_app, flag_rule, operand_rule, option_rule, renamed_flag_rule, renamed_rule, text_rule, with_entry, with_option};

use crate::help;
use crate::options::{CliOption, Takes};
use crate::subcommands::{CliSubcommand, FILES, QUESTIONS, RUNS};
use bpfdb_limits::GREATEST_COUNT;
use clap::{Arg, ArgAction, Command, value_parser};
use std::alloc::{AllocError, Global};

/// An option with a text.
fn text_option<'a>(alloc: Global, option: &CliOption<'a>) -> Arg<'a>
    ensures value { rule_of result ≡ text_rule option.now.name.now }
    ensures local { result.global ≡ false }
{
    Arg::new(alloc, option.name)
        .long(option.name)
        .value_name(option.value)
        .help(option.about)
        .long_help(option.long_about)
}

/// An option with a number, of steps or of lines.
fn count_option<'a>(alloc: Global, option: &CliOption<'a>) -> Arg<'a>
    ensures value { rule_of result ≡ count_rule_of option.now.name.now }
    ensures local { result.global ≡ false }
{
    text_option(alloc, option).value_parser(value_parser!(u64).range(
        1..=GREATEST_COUNT.cast_signed(),
    ))
}

/// An option that takes nothing.
fn flag<'a>(alloc: Global, option: &CliOption<'a>) -> Arg<'a>
    ensures value { rule_of result ≡ flag_rule option.now.name.now }
    ensures local { result.global ≡ false }
{
    Arg::new(alloc, option.name)
        .long(option.name)
        .action(ArgAction::SetTrue)
        .help(option.about)
}

/// What stands behind the options.
fn operand<'a>(alloc: Global, option: &CliOption<'a>) -> Arg<'a>
    ensures value { rule_of result ≡ operand_rule option.now.name.now }
    ensures local { result.global ≡ false }
{
    Arg::new(alloc, option.name)
        .value_name(option.value)
        .help(option.about)
}

/// An option with a text that has another name, too, which help leaves out.
fn renamed<'a>(
    alloc: Global,
    option: &CliOption<'a>,
    old_name: &'a str,
) -> Result<Arg<'a>, AllocError>
    ensures value { IfOk result (λ arg. rule_of arg
        ≡ renamed_rule option.now.name.now old_name.now) }
    ensures local { IfOk result (λ arg. arg.global ≡ false) }
{
    text_option(alloc, option).alias(old_name)
}

/// An option that takes nothing and has a name of one letter, and another name, too, which help leaves
/// out.
fn renamed_flag<'a>(
    alloc: Global,
    option: &CliOption<'a>,
    letter: char,
    old_name: &'a str,
) -> Result<Arg<'a>, AllocError>
    ensures value { IfOk result (λ arg. rule_of arg
        ≡ renamed_flag_rule option.now.name.now letter old_name.now) }
    ensures local { IfOk result (λ arg. arg.global ≡ false) }
{
    flag(alloc, option).short(letter).alias(old_name)
}

/// What `clap` is told of an option.
fn argument_of<'a>(alloc: Global, option: &CliOption<'a>) -> Result<Arg<'a>, AllocError>
    ensures value { IfOk result (λ arg. rule_of arg ≡ option_rule option.now) }
    ensures local { IfOk result (λ arg. arg.global ≡ false) }
{
    match option.takes {
        Takes::Nothing => Ok(flag(alloc, option)),
        Takes::Obsolete => Ok(flag(alloc, option).hide(true)),
        Takes::Text => Ok(text_option(alloc, option)),
        Takes::ShortText(letter) => Ok(text_option(alloc, option).short(letter)),
        Takes::Renamed(old_name) => renamed(alloc, option, old_name),
        Takes::RenamedFlag(letter, old_name) => renamed_flag(alloc, option, letter, old_name),
        Takes::Texts => Ok(text_option(alloc, option).action(ArgAction::Append)),
        Takes::TextOr(default) => Ok(text_option(alloc, option).default_value(default)),
        Takes::Count => Ok(count_option(alloc, option)),
        Takes::CountOr(default) => Ok(count_option(alloc, option).default_value(default)),
        Takes::SizeOr(default) => Ok(
            text_option(alloc, option)
                .value_parser(value_parser!(u64))
                .default_value(default),
        ),
        Takes::File => Ok(operand(alloc, option).required(true)),
        Takes::FileOr(default) => Ok(operand(alloc, option).default_value(default)),
        Takes::Second => Ok(operand(alloc, option).index(2)),
        Takes::NeededSecond => Ok(operand(alloc, option).index(2).required(true)),
    }
}

/// A command with its texts of help.
fn described<'a>(
    alloc: Global,
    name: &'a str,
    about: &'a str,
    long_about: &'a str,
    example: &'a str,
) -> Command<'a>
    ensures { app_of result ≡ new_app name.now }
{
    Command::new(alloc, name)
        .about(about)
        .long_about(long_about)
        .after_help(example)
}

/// A command and one more option, or what stands behind them.
fn with_option<'a>(
    alloc: Global,
    above: Command<'a>,
    option: &CliOption<'a>,
) -> Result<Command<'a>, AllocError>
    ensures { IfOk result (λ command. app_of command ≡ with_option (app_of above.entry) option.now) }
{
    above.arg(argument_of(alloc, option)?)
}

/// A command with options, and with what stands behind them.
fn with_options<'a>(
    alloc: Global,
    bare: Command<'a>,
    options: &[CliOption<'a>],
) -> Result<Command<'a>, AllocError>
    ensures { IfOk result (λ command. app_of command
        ≡ fold with_option (app_of bare.entry) options.now) }
{
    let mut command = bare;
    for option in options {
        command = with_option(alloc, command, option)?;
    }
    Ok(command)
}

/// A subcommand.
fn subcommand<'a>(alloc: Global, entry: &CliSubcommand<'a>) -> Result<Command<'a>, AllocError>
    ensures { IfOk result (λ command. app_of command ≡ entry_app entry.now) }
{
    with_options(
        alloc,
        described(
            alloc,
            entry.name,
            entry.about,
            entry.long_about,
            entry.example,
        ),
        entry.options,
    )
}

/// A command and one more subcommand.
fn with_entry<'a>(
    alloc: Global,
    above: Command<'a>,
    entry: &CliSubcommand<'a>,
) -> Result<Command<'a>, AllocError>
    ensures { IfOk result (λ command. app_of command
        ≡ with_subcommand (app_of above.entry) (entry_app entry.now).top) }
{
    above.subcommand(subcommand(alloc, entry)?)
}

/// The command without its subcommands.
fn bare_command<'a>(alloc: Global) -> Result<Command<'a>, AllocError>
    ensures { IfOk result (λ command. app_of command ≡ bare_app) }
{
    described(
        alloc,
        "bpfdb",
        help::BPFDB,
        help::BPFDB_LONG,
        help::BPFDB_EXAMPLE,
    )
    .subcommand_required(true)
    .version(help::VERSION)
    .bin_name("bpfdb")
}

/// A command and its subcommands.
fn with_entries<'a>(
    alloc: Global,
    bare: Command<'a>,
    entries: &[CliSubcommand<'a>],
) -> Result<Command<'a>, AllocError>
    ensures { IfOk result (λ command. app_of command
        ≡ fold with_entry (app_of bare.entry) entries.now) }
{
    let mut command = bare;
    for entry in entries {
        command = with_entry(alloc, command, entry)?;
    }
    Ok(command)
}

/// A command and the subcommands that run a program.
fn with_runs<'a>(alloc: Global, bare: Command<'a>) -> Result<Command<'a>, AllocError>
    ensures { IfOk result (λ command. app_of command ≡ with_runs (app_of bare.entry)) }
{
    with_entries(alloc, bare, &RUNS)
}

/// A command and the subcommands that ask about a run, and the server.
fn with_questions<'a>(alloc: Global, bare: Command<'a>) -> Result<Command<'a>, AllocError>
    ensures { IfOk result (λ command. app_of command ≡ with_questions (app_of bare.entry)) }
{
    with_entries(alloc, bare, &QUESTIONS)
}

/// A command and the subcommands of files.
fn with_files<'a>(alloc: Global, bare: Command<'a>) -> Result<Command<'a>, AllocError>
    ensures { IfOk result (λ command. app_of command ≡ with_files (app_of bare.entry)) }
{
    with_entries(alloc, bare, &FILES)
}

/// A command and the subcommands of all tables. (A function that names one of them is laid out with
/// all of its options, so each table has its own.)
fn with_subcommands<'a>(alloc: Global, bare: Command<'a>) -> Result<Command<'a>, AllocError>
    ensures { IfOk result (λ command. app_of command ≡ with_subcommands (app_of bare.entry)) }
{
    let running = with_runs(alloc, bare)?;
    let asking = with_questions(alloc, running)?;
    with_files(alloc, asking)
}

/// The whole command line.
pub fn command_line<'a>(alloc: Global) -> Result<Command<'a>, AllocError>
    ensures { IfOk result (λ command. app_of command ≡ command_app) }
{
    with_subcommands(alloc, bare_command(alloc)?)
}
