//! The parser of command lines.
ghost use Rattle.std.specs.Prelude.{◌≡◌};
ghost use Rattle.std.specs.Option.{ok_or};
ghost use Rattle.std.specs.Str.{bytes_eq};
ghost use Rattle.bpf_machine.specs.declared.edit.Edit.TheVariants as edit;
ghost use Rattle.bpfdb_script.specs.Commands.{bare, bytes_of, command_named, command_of, counted, number_and_span, number_within, numbered, one_number, one_of, optional_count, set_bytes, set_cell, set_register, settings, infos, spanned};
ghost use Rattle.bpfdb_script.specs.Limits.{greatest_span};

use crate::command::{Command, Goal, Stop, Target, View};
use crate::count::{Count, Span};
use crate::number::parse_number;
use crate::refusal::Refusal;
use crate::tokens::Tokens;
use bpf_isa::Reg;
use bpf_machine::{ByteString, Edit};

/// The longest line that is read, in bytes; its line feed isn't counted.
pub const LONGEST_LINE: usize = 1024;

/// The most bytes that an edit writes.
const LONGEST_BYTES: usize = 256;

/// The command on a line, which is given without its line feed; None where it has no tokens.
///
/// Q12 where the line is too long, else Q1 where its first token is no command's name, else Q2
/// where a token after the name is wrong, missing or too many.
#[tactic(auto, unfolding(crate::specs::Commands::command_of))]
pub fn parse_command(line: &[u8]) -> Result<Option<Command>, Refusal>
    ensures value { result ≡ command_of line.now }
{
    if line.len() > LONGEST_LINE {
        return Err(Refusal::LineTooLong);
    }
    let mut tokens = Tokens::new(line);
    let Some(name) = tokens.next_token() else {
        return Ok(None);
    };
    command_named(name, tokens).map(Some)
}

/// The command of this name, with the tokens after it.
#[tactic(auto, unfolding(crate::specs::Commands::command_named))]
fn command_named(name: &[u8], tokens: Tokens) -> Result<Command, Refusal>
    ensures value { result ≡ command_named name.now tokens.entry }
{
    if is(name, "stepi") {
        step(tokens)
    } else if is(name, "nexti") {
        bare(tokens, Command::Forward(Goal::Next))
    } else if is(name, "continue") {
        bare(tokens, Command::Forward(Goal::Continue))
    } else if is(name, "finish") {
        bare(tokens, Command::Forward(Goal::Finish))
    } else if is(name, "undo") {
        undo(tokens)
    } else if is(name, "reverse-stepi") {
        reverse_step(tokens)
    } else if is(name, "reverse-nexti") {
        bare(tokens, Command::Back(Target::Next))
    } else if is(name, "reverse-continue") {
        bare(tokens, Command::Back(Target::Continue))
    } else if is(name, "rc") {
        bare(tokens, Command::Back(Target::Continue))
    } else if is(name, "reverse-finish") {
        bare(tokens, Command::Back(Target::Finish))
    } else if is(name, "redo") {
        redo(tokens)
    } else if is(name, "set") {
        set(tokens)
    } else if is(name, "break") {
        set_break(tokens)
    } else if is(name, "delete") {
        delete(tokens)
    } else if is(name, "watch") {
        watch(tokens)
    } else if is(name, "unwatch") {
        unwatch(tokens)
    } else if is(name, "info") {
        info(tokens)
    } else if is(name, "x") {
        examine(tokens)
    } else if is(name, "disas") {
        disassemble(tokens)
    } else if is(name, "last-write") {
        last_write(tokens)
    } else if is(name, "quit") {
        bare(tokens, Command::Quit)
    } else {
        Err(Refusal::UnknownCommand)
    }
}

/// `stepi` and a count.
fn step(tokens: Tokens) -> Result<Command, Refusal>
    ensures value { result ≡ ok_or
        (counted (λ count. Command.Forward (Goal.Steps count)) tokens.entry) Refusal.WrongArgument }
{
    let count = optional_count(tokens)?;
    Ok(Command::Forward(Goal::Steps(count)))
}

/// `undo` and a count.
fn undo(tokens: Tokens) -> Result<Command, Refusal>
    ensures value { result ≡ ok_or
        (counted (λ count. Command.Back (Target.Commands count)) tokens.entry)
        Refusal.WrongArgument }
{
    let count = optional_count(tokens)?;
    Ok(Command::Back(Target::Commands(count)))
}

/// `reverse-stepi` and a count.
fn reverse_step(tokens: Tokens) -> Result<Command, Refusal>
    ensures value { result ≡ ok_or
        (counted (λ count. Command.Back (Target.Steps count)) tokens.entry) Refusal.WrongArgument }
{
    let count = optional_count(tokens)?;
    Ok(Command::Back(Target::Steps(count)))
}

/// `redo` and a count.
fn redo(tokens: Tokens) -> Result<Command, Refusal>
    ensures value { result ≡ ok_or (counted (λ count. Command.Redo count) tokens.entry)
        Refusal.WrongArgument }
{
    let count = optional_count(tokens)?;
    Ok(Command::Redo(count))
}

/// `break` and a slot.
fn set_break(tokens: Tokens) -> Result<Command, Refusal>
    ensures value { result ≡ ok_or
        (numbered (λ slot. Command.Add (Stop.Breakpoint slot)) tokens.entry) Refusal.WrongArgument }
{
    let slot = one_number(tokens)?;
    Ok(Command::Add(Stop::Breakpoint(slot)))
}

/// `delete` and a slot.
fn delete(tokens: Tokens) -> Result<Command, Refusal>
    ensures value { result ≡ ok_or
        (numbered (λ slot. Command.Remove (Stop.Breakpoint slot)) tokens.entry)
        Refusal.WrongArgument }
{
    let slot = one_number(tokens)?;
    Ok(Command::Remove(Stop::Breakpoint(slot)))
}

/// `watch` and an address.
fn watch(tokens: Tokens) -> Result<Command, Refusal>
    ensures value { result ≡ ok_or
        (numbered (λ address. Command.Add (Stop.Watch address)) tokens.entry)
        Refusal.WrongArgument }
{
    let address = one_number(tokens)?;
    Ok(Command::Add(Stop::Watch(address)))
}

/// `unwatch` and an address.
fn unwatch(tokens: Tokens) -> Result<Command, Refusal>
    ensures value { result ≡ ok_or
        (numbered (λ address. Command.Remove (Stop.Watch address)) tokens.entry)
        Refusal.WrongArgument }
{
    let address = one_number(tokens)?;
    Ok(Command::Remove(Stop::Watch(address)))
}

/// `last-write` and an address.
fn last_write(tokens: Tokens) -> Result<Command, Refusal>
    ensures value { result ≡ ok_or
        (numbered (λ address. Command.Show (View.LastWrite address)) tokens.entry)
        Refusal.WrongArgument }
{
    let address = one_number(tokens)?;
    Ok(Command::Show(View::LastWrite(address)))
}

/// `set` and what it changes.
#[tactic(auto, unfolding(crate::specs::Commands::one_of))]
fn set(mut tokens: Tokens) -> Result<Command, Refusal>
    ensures value { result ≡ ok_or (one_of settings tokens.entry) Refusal.WrongArgument }
{
    let name = tokens.next_token().ok_or(Refusal::WrongArgument)?;
    if is(name, "reg") {
        set_register(tokens)
    } else if is(name, "mem") {
        set_bytes(tokens)
    } else if is(name, "cell") {
        set_cell(tokens)
    } else if is(name, "pc") {
        set_pc(tokens)
    } else {
        Err(Refusal::WrongArgument)
    }
}

/// `set reg`: a register and a number.
fn set_register(mut tokens: Tokens) -> Result<Command, Refusal>
    ensures value { result ≡ ok_or (set_register tokens.entry) Refusal.WrongArgument }
{
    let register = tokens.next_token().ok_or(Refusal::WrongArgument)?;
    let value = tokens.next_token().ok_or(Refusal::WrongArgument)?;
    tokens.end()?;
    match (Reg::parse(register), parse_number(value)) {
        (Some(register), Some(value)) => Ok(Command::Edit(Edit::Register { register, value })),
        _ => Err(Refusal::WrongArgument),
    }
}

/// `set mem`: an address and bytes.
fn set_bytes(mut tokens: Tokens) -> Result<Command, Refusal>
    ensures value { result ≡ ok_or (set_bytes tokens.entry) Refusal.WrongArgument }
{
    let address = tokens.next_token().ok_or(Refusal::WrongArgument)?;
    let bytes = tokens.next_token().ok_or(Refusal::WrongArgument)?;
    tokens.end()?;
    match (parse_number(address), parse_bytes(bytes)) {
        (Some(address), Some(bytes)) => Ok(Command::Edit(Edit::Bytes { address, bytes })),
        _ => Err(Refusal::WrongArgument),
    }
}

/// `set cell`: a map, an index and bytes.
fn set_cell(mut tokens: Tokens) -> Result<Command, Refusal>
    ensures value { result ≡ ok_or (set_cell tokens.entry) Refusal.WrongArgument }
{
    let map = tokens.next_token().ok_or(Refusal::WrongArgument)?;
    let index = tokens.next_token().ok_or(Refusal::WrongArgument)?;
    let bytes = tokens.next_token().ok_or(Refusal::WrongArgument)?;
    tokens.end()?;
    match (parse_number(map), parse_number(index), parse_bytes(bytes)) {
        (Some(map), Some(index), Some(bytes)) => Ok(Command::Edit(Edit::Cell {
            map,
            index,
            bytes,
        })),
        _ => Err(Refusal::WrongArgument),
    }
}

/// `set pc`: a slot.
fn set_pc(tokens: Tokens) -> Result<Command, Refusal>
    ensures value { result ≡ ok_or (numbered (λ slot. Command.Edit (edit.Pc slot)) tokens.entry)
        Refusal.WrongArgument }
{
    let slot = one_number(tokens)?;
    Ok(Command::Edit(Edit::Pc { slot }))
}

/// `info` and what it shows.
#[tactic(auto, unfolding(crate::specs::Commands::one_of))]
fn info(mut tokens: Tokens) -> Result<Command, Refusal>
    ensures value { result ≡ ok_or (one_of infos tokens.entry) Refusal.WrongArgument }
{
    let name = tokens.next_token().ok_or(Refusal::WrongArgument)?;
    if is(name, "regs") {
        bare(tokens, Command::Show(View::Registers))
    } else if is(name, "frames") {
        bare(tokens, Command::Show(View::Frames))
    } else if is(name, "breaks") {
        bare(tokens, Command::Show(View::Breaks))
    } else if is(name, "history") {
        bare(tokens, Command::Show(View::History))
    } else if is(name, "trace") {
        bare(tokens, Command::Show(View::Trace))
    } else {
        Err(Refusal::WrongArgument)
    }
}

/// `x`: an address and how many bytes.
fn examine(tokens: Tokens) -> Result<Command, Refusal>
    ensures value { result ≡ ok_or
        (spanned (λ address span. Command.Show (View.Bytes address span)) tokens.entry)
        Refusal.WrongArgument }
{
    match number_and_span(tokens) {
        Ok((address, span)) => Ok(Command::Show(View::Bytes { address, span })),
        Err(refusal) => Err(refusal),
    }
}

/// `disas`: a slot and how many instructions.
fn disassemble(tokens: Tokens) -> Result<Command, Refusal>
    ensures value { result ≡ ok_or
        (spanned (λ slot span. Command.Show (View.Instructions slot span)) tokens.entry)
        Refusal.WrongArgument }
{
    match number_and_span(tokens) {
        Ok((slot, span)) => Ok(Command::Show(View::Instructions { slot, span })),
        Err(refusal) => Err(refusal),
    }
}

/// A command after whose name no token stands.
fn bare(tokens: Tokens, command: Command) -> Result<Command, Refusal>
    ensures value { result ≡ ok_or (bare command tokens.entry) Refusal.WrongArgument }
{
    tokens.end()?;
    Ok(command)
}

/// A count, which is 1 where no token is left.
fn optional_count(mut tokens: Tokens) -> Result<Count, Refusal>
    ensures value { result ≡ ok_or (optional_count tokens.entry) Refusal.WrongArgument }
{
    let Some(token) = tokens.next_token() else {
        return Ok(Count::ONE);
    };
    let count = parse_number(token).and_then(Count::new);
    tokens.end()?;
    count.ok_or(Refusal::WrongArgument)
}

/// One number.
fn one_number(mut tokens: Tokens) -> Result<u64, Refusal>
    ensures value { result ≡ ok_or (one_number tokens.entry) Refusal.WrongArgument }
{
    let number = tokens.next_token().and_then(parse_number);
    tokens.end()?;
    number.ok_or(Refusal::WrongArgument)
}

/// A number, and how much is shown from there on.
fn number_and_span(mut tokens: Tokens) -> Result<(u64, Span), Refusal>
    ensures value { result ≡ ok_or (number_and_span tokens.entry) Refusal.WrongArgument }
{
    let number = tokens.next_token().ok_or(Refusal::WrongArgument)?;
    let span = tokens.next_token().ok_or(Refusal::WrongArgument)?;
    tokens.end()?;
    match (parse_number(number), parse_span(span)) {
        (Some(number), Some(span)) => Ok((number, span)),
        _ => Err(Refusal::WrongArgument),
    }
}

/// How much is shown at once.
fn parse_span(token: &[u8]) -> Option<Span>
    ensures value { result ≡ number_within greatest_span token.now }
{
    parse_number(token).and_then(Span::new)
}

/// Bytes as hexadecimal digits of either case, two a byte: 1 to 256 bytes.
#[tactic(auto, using(crate::proofs::ByteTexts::too_many_bytes))]
pub fn parse_bytes(digits: &[u8]) -> Option<ByteString>
    ensures value { result ≡ bytes_of digits.now }
{
    let len = digits.len() / 2;
    if len > LONGEST_BYTES {
        return None;
    }
    let mut buffer = [0; LONGEST_BYTES];
    hex::decode_to_slice(digits, &mut buffer[..len]).ok()?;
    ByteString::new(&buffer[..len])
}

/// Whether a token is this text; case matters.
fn is(token: &[u8], text: &str) -> bool
    ensures value { result ≡ bytes_eq token.now text.now }
{
    token == text.as_bytes()
}
