//! Registers with their values, as the command line lists them.
ghost use Rattle.std.specs.Prelude.{◌≡◌, ◌≤◌, ◌<◌, IfOk, is_some, option_map};
ghost use Rattle.counted_io.specs.Numerals.{natural};
ghost use Rattle.bpf_opening.specs.Lists.{number_within, context_at, stack_at, offset_in, place_in, register_in, setting_in, value_in, with_setting, opening_in, asked_opening};

use crate::fault::OpeningFault;
use crate::opening::{BARE, Opening};
use bpf_isa::Reg;
use bpf_steps::platform::{CONTEXT_BASE, CONTEXT_LIMIT, FRAME_LEN, frame_pointer};
use counted_io::{natural, sides, trim};

/// A register, and the value that it gets.
#[derive(Clone, Copy)]
struct Setting {
    register: u8,
    value: u64,
}

/// The number that a text is, if it is at most this.
fn number_within(text: &[u8], most: u64) -> Result<u64, OpeningFault>
    ensures value { result ≡ number_within most (natural text.now) }
    ensures within { IfOk result (λ n. n ≤ most) }
{
    let Some(numeral) = natural(text) else {
        return Err(OpeningFault::Malformed);
    };
    match numeral.to_u64() {
        Some(n) => {
            if n <= most {
                Ok(n)
            } else {
                Err(OpeningFault::OutOfRange)
            }
        }
        None => Err(OpeningFault::OutOfRange),
    }
}

/// The address of the context's byte that so many stand before.
fn context_at(offset: &[u8]) -> Result<u64, OpeningFault>
    ensures { result ≡ context_at offset.now }
{
    match number_within(offset, CONTEXT_LIMIT as u64) {
        Ok(n) => Ok(CONTEXT_BASE + n),
        Err(fault) => Err(fault),
    }
}

/// The address that lies so many bytes before the end of the outermost frame.
fn stack_at(offset: &[u8]) -> Result<u64, OpeningFault>
    ensures { result ≡ stack_at offset.now }
{
    match number_within(offset, FRAME_LEN as u64) {
        Ok(n) => Ok(frame_pointer(0) - n),
        Err(fault) => Err(fault),
    }
}

/// The address of a place behind the context's first byte, or before the end of the outermost frame.
#[tactic(auto, unfolding(crate::specs::Lists::offset_in))]
fn offset_in(text: &[u8]) -> Result<u64, OpeningFault>
    ensures { result ≡ offset_in text.now }
{
    if let Some(offset) = text.strip_prefix(b"context+") {
        return context_at(offset);
    }
    match text.strip_prefix(b"stack-") {
        Some(offset) => stack_at(offset),
        None => Err(OpeningFault::Malformed),
    }
}

/// The address of a place in the context or in the outermost frame.
#[tactic(auto, unfolding(crate::specs::Lists::place_in))]
fn place_in(text: &[u8]) -> Result<u64, OpeningFault>
    ensures { result ≡ place_in text.now }
{
    if text == b"context".as_slice() {
        Ok(CONTEXT_BASE)
    } else if text == b"stack".as_slice() {
        Ok(frame_pointer(0))
    } else {
        offset_in(text)
    }
}

/// The value that a text is: a number below 2^64, or the address of a place.
fn value_in(text: &[u8]) -> Result<u64, OpeningFault>
    ensures { result ≡ value_in text.now }
{
    if natural(text).is_some() {
        number_within(text, u64::MAX)
    } else {
        place_in(text)
    }
}

/// The number of the register that a text names, if it can get a value.
fn register_in(text: &[u8]) -> Result<u8, OpeningFault>
    ensures value { result ≡ register_in text.now }
    ensures few { IfOk result (λ r. r < 10) }
{
    let Some(register) = Reg::parse(text) else {
        return Err(OpeningFault::Malformed);
    };
    if register.number() < 10 {
        Ok(register.number())
    } else {
        Err(OpeningFault::FramePointer)
    }
}

/// The register and the value that an item of a list is.
fn setting_in(item: &[u8]) -> Result<Setting, OpeningFault>
    ensures value { result ≡ setting_in item.now }
    ensures few { IfOk result (λ setting. setting.register < 10) }
{
    let (name, number) = sides(item, b'=');
    let register = match register_in(trim(name)) {
        Ok(register) => register,
        Err(fault) => return Err(fault),
    };
    match value_in(trim(number)) {
        Ok(value) => Ok(Setting { register, value }),
        Err(fault) => Err(fault),
    }
}

/// The opening in which one more register has a value, unless it has one.
fn with_setting(opening: Opening, setting: Setting) -> Result<Opening, OpeningFault>
    requires few { setting.register < 10 }
    ensures { result ≡ with_setting setting opening }
{
    let place = setting.register as usize;
    if opening.registers[place].is_some() {
        return Err(OpeningFault::Twice);
    }
    let mut registers = opening.registers;
    registers[place] = Some(setting.value);
    Ok(Opening { registers })
}

/// The opening in which the registers of a list have its values, as `r1=0x5,r3=context+4`: registers r0
/// to r9, each once; a value is a number as the session's `set reg` takes it, or the address of a place
/// in the context or in the outermost frame.
///
/// The fault is that of the first item that has one. Takes time in proportion to the length of the
/// text.
fn opening_in(text: &[u8]) -> Result<Opening, OpeningFault>
    ensures { result ≡ opening_in text.now }
{
    let mut opening = BARE;
    for item in text.split(|byte| *byte == b',') {
        let setting = match setting_in(item) {
            Ok(setting) => setting,
            Err(fault) => return Err(fault),
        };
        match with_setting(opening, setting) {
            Ok(more) => opening = more,
            Err(fault) => return Err(fault),
        }
    }
    Ok(opening)
}

/// The opening that a list of registers asks for; the bare one where there is no list.
pub fn asked_opening(regs: Option<&str>) -> Result<Opening, OpeningFault>
    ensures { result ≡ asked_opening (option_map (λ text. text.now) regs.entry) }
{
    match regs {
        Some(text) => opening_in(text.as_bytes()),
        None => Ok(BARE),
    }
}
