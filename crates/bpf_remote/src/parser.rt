//! The parser of requests.
ghost use Rattle.std.specs.Prelude.{◌≡◌, is_some};
ghost use Rattle.std.specs.Option.{option_and_then, unwrap_or};
ghost use Rattle.bpf_session.specs.WatchRuns.{run_of};
ghost use Rattle.bpf_remote.specs.Numbers.{behind, pair};
ghost use Rattle.std.specs.Str.{bytes_eq};
ghost use Rattle.bpfdb_script.specs.Commands.{bytes_of};
ghost use Rattle.bpf_remote.specs.Requests.{action, actions, begun_request, condition_behind, condition_of, contains, delete, description, edit_of, memory, question, range, register, request_of, set_break, set_memory, set_register, slot_of, stop_request, supported, watch, with_signal, word_request};

use crate::number::{before, behind, number, pair, word};
use crate::request::Request;
use bpf_isa::Reg;
use bpf_machine::{ByteString, Edit};
use bpf_session::{Command, Count, Goal, Run, Stop, Target};
use counted_io::cut;

/// The most bytes that an edit writes.
const LONGEST_BYTES: usize = 256;

/// What the body of a packet asks for.
pub fn request_of(body: &[u8]) -> Request
    ensures { result ≡ request_of body.now }
{
    match word_request(body) {
        Some(request) => request,
        None => match stop_request(body) {
            Some(request) => request,
            None => named_request(body),
        },
    }
}

/// A question, or the request that begins with another name.
fn named_request(body: &[u8]) -> Request
    ensures { result ≡ unwrap_or (question body.now)
        (unwrap_or (begun_request body.now) Request.Unknown) }
{
    match question(body) {
        Some(request) => request,
        None => match begun_request(body) {
            Some(request) => request,
            None => Request::Unknown,
        },
    }
}

/// The request that is a whole word.
#[tactic(auto, unfolding(crate::specs::Requests::word_request))]
fn word_request(body: &[u8]) -> Option<Request>
    ensures { result ≡ word_request body.now }
{
    if is(body, "?") {
        Some(Request::Stop)
    } else if is(body, "g") {
        Some(Request::Registers)
    } else if is(body, "s") {
        Some(Request::Move(Command::Forward(Goal::Steps(Count::ONE))))
    } else if is(body, "c") {
        Some(Request::Move(Command::Forward(Goal::Continue)))
    } else if is(body, "bs") {
        Some(Request::Move(Command::Back(Target::Steps(Count::ONE))))
    } else if is(body, "bc") {
        Some(Request::Move(Command::Back(Target::Continue)))
    } else if is(body, "QStartNoAckMode") {
        Some(Request::Silence)
    } else if is(body, "vCont?") {
        Some(Request::Actions)
    } else {
        None
    }
}

/// The request that sets what stops the machine, or takes it away.
#[tactic(auto, unfolding(crate::specs::Requests::stop_request))]
fn stop_request(body: &[u8]) -> Option<Request>
    ensures { result ≡ stop_request body.now }
{
    if let Some(rest) = behind("Z0,", body) {
        Some(set_break(rest))
    } else if let Some(rest) = behind("z0,", body) {
        Some(delete(rest))
    } else if let Some(rest) = behind("Z1,", body) {
        Some(set_break(rest))
    } else if let Some(rest) = behind("z1,", body) {
        Some(delete(rest))
    } else if let Some(rest) = behind("Z2,", body) {
        Some(watch(rest))
    } else if let Some(rest) = behind("z2,", body) {
        Some(unwatch(rest))
    } else {
        None
    }
}

/// The request that asks what is understood, or about the machine.
#[tactic(auto, unfolding(crate::specs::Requests::question))]
fn question(body: &[u8]) -> Option<Request>
    ensures { result ≡ question body.now }
{
    if let Some(rest) = behind("qSupported", body) {
        Some(supported(rest))
    } else if begins("qAttached", body) {
        Some(Request::Attached)
    } else if let Some(rest) = behind("qXfer:features:read:target.xml:", body) {
        Some(description(rest))
    } else {
        None
    }
}

/// The request that begins with another name.
#[tactic(auto, unfolding(crate::specs::Requests::begun_request))]
fn begun_request(body: &[u8]) -> Option<Request>
    ensures { result ≡ begun_request body.now }
{
    if let Some(rest) = behind("p", body) {
        Some(register(rest))
    } else if let Some(rest) = behind("P", body) {
        Some(set_register(rest))
    } else if let Some(rest) = behind("m", body) {
        Some(memory(rest))
    } else if let Some(rest) = behind("M", body) {
        Some(set_memory(rest))
    } else if let Some(rest) = behind("S", body) {
        Some(with_signal(Goal::Steps(Count::ONE), rest))
    } else if let Some(rest) = behind("C", body) {
        Some(with_signal(Goal::Continue, rest))
    } else if let Some(rest) = behind("vCont;", body) {
        Some(actions(rest))
    } else if begins("H", body) {
        Some(Request::Thread)
    } else if begins("D", body) {
        Some(Request::Leave)
    } else if begins("vKill", body) {
        Some(Request::Leave)
    } else if begins("k", body) {
        Some(Request::Kill)
    } else {
        None
    }
}

/// The number of a register.
fn register(rest: &[u8]) -> Request
    ensures { result ≡ register rest.now }
{
    match number(rest) {
        Some(n) => Request::Register(n),
        None => Request::Wrong,
    }
}

/// The number of a register, `=`, and its eight bytes.
fn set_register(rest: &[u8]) -> Request
    ensures { result ≡ set_register rest.now }
{
    let Some((left, right)) = cut(rest, b'=') else {
        return Request::Wrong;
    };
    let (Some(n), Some(value)) = (number(left), word(right)) else {
        return Request::Wrong;
    };
    match edit_of(n, value) {
        Some(command) => Request::Set(command),
        None => Request::Wrong,
    }
}

/// The edit that sets the register of a number.
fn edit_of(n: u64, value: u64) -> Option<Command>
    ensures { result ≡ edit_of n value }
{
    if n <= 10 {
        let register = Reg::new(n as u8)?;
        return Some(Command::Edit(Edit::Register { register, value }));
    }
    if n == 11 {
        let slot = slot_of(value)?;
        return Some(Command::Edit(Edit::Pc { slot }));
    }
    if n <= 22 {
        let register = Reg::new((n - 12) as u8)?;
        return Some(Command::Edit(Edit::Register { register, value }));
    }
    None
}

/// An address, a comma and how many bytes.
fn memory(rest: &[u8]) -> Request
    ensures { result ≡ memory rest.now }
{
    match pair(b',', rest) {
        Some((address, count)) => Request::Memory { address, count },
        None => Request::Wrong,
    }
}

/// An address, a comma, how many bytes, a colon and the bytes.
fn set_memory(rest: &[u8]) -> Request
    ensures { result ≡ set_memory rest.now }
{
    let Some((left, right)) = cut(rest, b':') else {
        return Request::Wrong;
    };
    let (Some((address, count)), Some(bytes)) = (pair(b',', left), bytes_of(right)) else {
        return Request::Wrong;
    };
    if bytes.as_slice().len() as u64 == count {
        Request::Set(Command::Edit(Edit::Bytes { address, bytes }))
    } else {
        Request::Wrong
    }
}

/// Bytes as hexadecimal digits of either case, two a byte: 1 to 256 bytes.
#[tactic(auto, using(bpfdb_script::proofs::ByteTexts::too_many_bytes))]
fn bytes_of(digits: &[u8]) -> Option<ByteString>
    ensures { result ≡ bytes_of digits.now }
{
    let len = digits.len() / 2;
    if len > LONGEST_BYTES {
        return None;
    }
    let mut buffer = [0; LONGEST_BYTES];
    hex::decode_to_slice(digits, &mut buffer[..len]).ok()?;
    ByteString::new(&buffer[..len])
}

/// The slot of an address that is eight times a slot.
fn slot_of(address: u64) -> Option<u64>
    ensures { result ≡ slot_of address }
{
    if address % 8 == 0 {
        Some(address / 8)
    } else {
        None
    }
}

/// The slot of an address, a comma, and a number that says nothing.
fn slot_at(rest: &[u8]) -> Option<u64>
    ensures { result ≡ option_and_then (λ p. slot_of p.0) (pair 44 rest.now) }
{
    match pair(b',', rest) {
        Some((address, _)) => slot_of(address),
        None => None,
    }
}

/// Sets a breakpoint: its address and kind, and a list of conditions behind a semicolon, if it has
/// one.
fn set_break(rest: &[u8]) -> Request
    ensures { result ≡ set_break rest.now }
{
    match slot_at(before(b';', rest)) {
        Some(slot) => Request::Break {
            slot,
            condition: condition_behind(rest),
        },
        None => Request::Wrong,
    }
}

/// The bytecode of the condition behind a semicolon, None where there is none that is kept.
fn condition_behind(rest: &[u8]) -> Option<ByteString>
    ensures { result ≡ condition_behind rest.now }
{
    match cut(rest, b';') {
        Some((_, list)) => condition_of(list),
        None => None,
    }
}

/// The bytecode of a list of one condition: `X`, how many bytes it has, a comma, and its bytes.
fn condition_of(list: &[u8]) -> Option<ByteString>
    ensures { result ≡ condition_of list.now }
{
    let rest = behind("X", list)?;
    let (len, digits) = cut(rest, b',')?;
    let (len, code) = (number(len)?, bytes_of(digits)?);
    if code.as_slice().len() as u64 == len {
        Some(code)
    } else {
        None
    }
}

/// Removes a breakpoint.
fn delete(rest: &[u8]) -> Request
    ensures { result ≡ delete rest.now }
{
    match slot_at(rest) {
        Some(slot) => Request::Set(Command::Remove(Stop::Breakpoint(slot))),
        None => Request::Wrong,
    }
}

/// An address, a comma, and how many bytes are watched from there on.
fn run_at(rest: &[u8]) -> Option<Run>
    ensures { result ≡ option_and_then (λ p. run_of p.0 p.1) (pair 44 rest.now) }
{
    match pair(b',', rest) {
        Some((address, count)) => Run::new(address, count),
        None => None,
    }
}

/// Watches bytes.
fn watch(rest: &[u8]) -> Request
    ensures { result ≡ watch Request.Watch rest.now }
{
    match run_at(rest) {
        Some(run) => Request::Watch(run),
        None => Request::Wrong,
    }
}

/// No longer watches bytes.
fn unwatch(rest: &[u8]) -> Request
    ensures { result ≡ watch Request.Unwatch rest.now }
{
    match run_at(rest) {
        Some(run) => Request::Unwatch(run),
        None => Request::Wrong,
    }
}

/// The first action of a thread, before a semicolon, and before a colon and the thread that it
/// names.
fn actions(rest: &[u8]) -> Request
    ensures { result ≡ actions rest.now }
{
    action(before(b':', before(b';', rest)))
}

/// What a thread is to do: `s` or `c`, `S` or `C` with a signal, or `r` with a range.
fn action(text: &[u8]) -> Request
    ensures { result ≡ action text.now }
{
    if is(text, "s") {
        Request::Move(Command::Forward(Goal::Steps(Count::ONE)))
    } else if is(text, "c") {
        Request::Move(Command::Forward(Goal::Continue))
    } else if let Some(rest) = behind("S", text) {
        with_signal(Goal::Steps(Count::ONE), rest)
    } else if let Some(rest) = behind("C", text) {
        with_signal(Goal::Continue, rest)
    } else if let Some(rest) = behind("r", text) {
        range(rest)
    } else {
        Request::Wrong
    }
}

/// The first address of a range, a comma, and the address behind its last.
fn range(rest: &[u8]) -> Request
    ensures { result ≡ range rest.now }
{
    match pair(b',', rest) {
        Some((from, to)) => Request::Range { from, to },
        None => Request::Wrong,
    }
}

/// Goes on, where what stands behind is the number of a signal, which says nothing.
fn with_signal(goal: Goal, rest: &[u8]) -> Request
    ensures { result ≡ with_signal goal rest.now }
{
    match number(rest) {
        Some(_) => Request::Move(Command::Forward(goal)),
        None => Request::Wrong,
    }
}

/// Where a part of gdb's description begins, a comma and how many bytes it has at most.
fn description(rest: &[u8]) -> Request
    ensures { result ≡ description rest.now }
{
    match pair(b',', rest) {
        Some((offset, count)) => Request::Description { offset, count },
        None => Request::Wrong,
    }
}

/// Words that gdb understands.
fn supported(rest: &[u8]) -> Request
    ensures { result ≡ supported rest.now }
{
    Request::Supported {
        swbreak: contains("swbreak+", rest),
    }
}

/// Whether a text stands in another.
fn contains(name: &str, text: &[u8]) -> bool
    ensures { result ≡ contains name.now text.now }
{
    for i in 0..text.len() {
        if begins(name, &text[i..]) {
            return true;
        }
    }
    false
}

/// Whether a text begins with a name.
fn begins(name: &str, text: &[u8]) -> bool
    ensures { result ≡ is_some (behind name.now text.now) }
{
    behind(name, text).is_some()
}

/// Whether a body is this text; case matters.
pub(crate) fn is(body: &[u8], text: &str) -> bool
    ensures { result ≡ bytes_eq body.now text.now }
{
    body == text.as_bytes()
}
