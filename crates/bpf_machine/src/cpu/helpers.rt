//! What helpers do: lookup, update and trace.
ghost use Rattle.std.specs.Prelude.{◌≡◌, ◌<◌, ◌≤◌, ◌+◌, ◌-◌, ◌^◌, IfSome, option_map};
ghost use Rattle.bpf_isa.specs.Programs.{IsStart};
ghost use Rattle.bpf_isa.specs.Maps.{IsShape};
ghost use Rattle.bpf_steps.specs.Helpers as spec;
ghost use Rattle.bpf_steps.specs.Platform.{token_base};
ghost use Rattle.bpf_steps.specs.Regions.{number_at};
ghost use Rattle.bpf_steps.specs.Access.{accessible};
ghost use Rattle.bpf_steps.specs.State.{register};

use super::Cpu;
use super::step::{fault, r0};
use bpf_entries::{Fault, Status};
use bpf_isa::{Helper, MapShape, Reg, Size};
use bpf_steps::Change;
use bpf_steps::platform::{TOKEN_BASE, TRACE_LIMIT, cell_address};

impl Cpu {
    /// What a helper does.
    pub(super) fn help(&self, helper: Helper) -> Change
        requires { IsStart self.now.program (self.now.pc + 1) }
        ensures { result ≡ spec.helper self.now helper }
    {
        match helper {
            Helper::Lookup => self.lookup(),
            Helper::Update => self.update(),
            Helper::Trace => self.trace_word(),
        }
    }

    /// Lookup: the address of the value of a key, 0 where the map has no such key.
    fn lookup(&self) -> Change
        requires { IsStart self.now.program (self.now.pc + 1) }
        ensures { result ≡ spec.lookup self.now }
    {
        let token = self.argument(1);
        let shape = match self.shape(token) {
            Some(shape) => shape,
            None => return token_fault(token),
        };
        let address = self.argument(2);
        let key = match self.key(address) {
            Some(key) => key,
            None => return fault(address),
        };
        if key < u64::from(shape.entries) {
            self.answer(cell_address(token - TOKEN_BASE, key, shape.value_size as usize))
        } else {
            self.answer(0)
        }
    }

    /// Update: a cell becomes the bytes at an address.
    fn update(&self) -> Change
        requires { IsStart self.now.program (self.now.pc + 1) }
        ensures { result ≡ spec.update self.now }
    {
        let token = self.argument(1);
        let shape = match self.shape(token) {
            Some(shape) => shape,
            None => return token_fault(token),
        };
        let address = self.argument(2);
        match self.key(address) {
            Some(key) => self.update_of(token - TOKEN_BASE, &shape, key),
            None => fault(address),
        }
    }

    /// The change that an update of a map makes where the map and the key are known.
    fn update_of(&self, map: u64, shape: &MapShape, key: u64) -> Change
        requires start { IsStart self.now.program (self.now.pc + 1) }
        requires map { map < 16 }
        requires shape { IsShape shape.now }
        ensures { result ≡ spec.update_of self.now map shape.now key }
    {
        let flags = self.argument(4);
        if flags > 2 {
            return self.answer(negative(22));
        }
        if flags == 1 {
            return self.answer(negative(17));
        }
        if key >= u64::from(shape.entries) {
            return self.answer(negative(7));
        }
        let address = self.argument(3);
        match self.access(address, shape.value_size as usize) {
            Some(source) => Change::Cell {
                address: cell_address(map, key, shape.value_size as usize),
                source,
                length: shape.value_size as u16,
                next: self.after(1),
            },
            None => fault(address),
        }
    }

    /// Trace: a word is appended to the trace list, where there is room.
    fn trace_word(&self) -> Change
        requires { IsStart self.now.program (self.now.pc + 1) }
        ensures { result ≡ spec.trace self.now }
    {
        if self.trace().len() < TRACE_LIMIT {
            Change::Trace {
                word: self.argument(1),
                next: self.after(1),
            }
        } else {
            self.answer(negative(1))
        }
    }

    /// An argument, which is in the register of this number.
    fn argument(&self, number: usize) -> u64
        requires { number < 10 }
        ensures { result ≡ register self.now number }
    {
        self.registers[number]
    }

    /// An answer in r0, and nothing else.
    fn answer(&self, value: u64) -> Change
        requires { IsStart self.now.program (self.now.pc + 1) }
        ensures { result ≡ spec.answer self.now value }
    {
        self.set(r0(), value, 1)
    }

    /// The shape of the map that a number is the token of, None where it is no map's.
    fn shape(&self, token: u64) -> Option<MapShape>
        ensures value { result ≡ spec.map_shape self.now token }
        ensures shape { IfSome result IsShape }
        ensures map { IfSome result (λ shape. (token_base ≤ token) × (token < token_base + 16)) }
    {
        if token < TOKEN_BASE {
            return None;
        }
        let maps = self.program.maps();
        let _count = maps.len();
        maps.shape((token - TOKEN_BASE) as usize)
    }

    /// The key at an address, None where it isn't accessible.
    fn key(&self, address: u64) -> Option<u64>
        ensures { result ≡ option_map (λ at. number_at self.now.memory at 4)
            (accessible self.now address 4) }
    {
        match self.access(address, 4) {
            Some(index) => Some(self.memory.number(index, Size::Word)),
            None => None,
        }
    }
}

/// A negative answer, mod 2^64.
fn negative(number: u64) -> u64
    requires { (1 ≤ number) × (number < 100) }
    ensures { result ≡ 2 ^ 64 - number }
{
    0u64.wrapping_sub(number)
}

/// A number was no map's token: the machine faults with it.
fn token_fault(token: u64) -> Change
    ensures { result ≡ Change.Stop (Status.Faulted (Fault.Token token)) }
{
    Change::Stop {
        status: Status::Faulted(Fault::Token { token }),
    }
}
