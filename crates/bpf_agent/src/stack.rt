//! The stack of an evaluation.
ghost use Rattle.std.specs.Prelude.{◌≡◌, ◌∷◌, [], List, Option, Some, None, MatchOption, nat_lt, length, slice_get, true, ℕ};
ghost use Rattle.bpf_agent.specs.Expressions.{most_numbers};

use arrayvec::ArrayVec;
use std::marker::Model;

/// The most numbers of a stack.
const MOST_NUMBERS: usize = 32;

/// Numbers, at most 32. Contracts see the newest first.
#[derive(Drop)]
pub struct Stack {
    numbers: ArrayVec<u64, MOST_NUMBERS>,
}

impl Model for Stack {
    ghost use Rattle.std.specs.Prelude.{ℕ, List, reverse};

    ghost Value = { List ℕ };

    ghost view = { λ s. reverse s.numbers.items };
}

impl Stack {
    /// No numbers.
    pub fn new() -> Stack
        ensures { result ≡ [] }
    {
        Stack {
            numbers: ArrayVec::new(),
        }
    }

    /// Pushes a number. Answers whether there was room for it.
    pub fn push(&mut self, number: u64) -> bool
        ensures value { result ≡ nat_lt (length self.old) most_numbers }
        ensures pushed { result ≡ true → self.new ≡ number ∷ self.old }
    {
        self.numbers.try_push(number).is_ok()
    }

    /// Takes the newest number.
    pub fn pop(&mut self) -> Option<u64>
        ensures { MatchOption result (self.old ≡ []) (λ number. self.old ≡ number ∷ self.new) }
    {
        self.numbers.pop()
    }

    /// A number, 0 the newest.
    pub fn get(&self, n: u64) -> Option<u64>
        ensures { result ≡ slice_get self.now n }
    {
        let len = self.numbers.len() as u64;
        if n < len {
            Some(self.numbers[(len - 1 - n) as usize])
        } else {
            None
        }
    }
}
