//! Counts of steps and moves, and how much is shown at once.
ghost use Rattle.std.specs.Prelude.{◌≡◌, ◌≤◌, ◌↔◌, IfSome, IsSome};
ghost use Rattle.bpfdb_script.specs.Limits.{greatest_count, greatest_span};

use bpfdb_limits::GREATEST_COUNT;
use std::marker::Model;

/// How many steps or moves a command asks for: 1 to 1,000,000,000.
#[derive(Clone, Copy)]
pub struct Count {
    value: u64,
}

impl Model for Count {
    ghost use Rattle.std.specs.Prelude.{ℕ, ◌≤◌};
    ghost use Rattle.bpfdb_script.specs.Limits.{greatest_count};

    ghost Value = { ℕ };

    ghost view = { λ count. count.value };

    ghost invariant = { λ count. (1 ≤ count.value) × (count.value ≤ greatest_count) };

    ghost inverse = { λ n. record { value = n } };
}

impl Count {
    /// The count of a command that doesn't say one.
    pub const ONE: Count = Count { value: 1 };

    /// The count of this value, None for 0 and above 1,000,000,000.
    pub fn new(value: u64) -> Option<Count>
        ensures found { IsSome result ↔ ((1 ≤ value) × (value ≤ greatest_count)) }
        ensures value { IfSome result (λ count. count ≡ value) }
    {
        if (1..=GREATEST_COUNT).contains(&value) {
            Some(Count { value })
        } else {
            None
        }
    }

    /// The count's value, 1 to 1,000,000,000.
    pub fn get(&self) -> u64
        ensures value { result ≡ self.now }
        ensures fits { (1 ≤ result) × (result ≤ greatest_count) }
    {
        self.value
    }
}

/// The most bytes or instructions that are shown at once.
pub const GREATEST_SPAN: u64 = 256;

/// How many bytes or instructions a command shows: 1 to 256.
#[derive(Clone, Copy)]
pub struct Span {
    len: u64,
}

impl Model for Span {
    ghost use Rattle.std.specs.Prelude.{ℕ, ◌≤◌};
    ghost use Rattle.bpfdb_script.specs.Limits.{greatest_span};

    ghost Value = { ℕ };

    ghost view = { λ span. span.len };

    ghost invariant = { λ span. (1 ≤ span.len) × (span.len ≤ greatest_span) };

    ghost inverse = { λ n. record { len = n } };
}

impl Span {
    /// The span of this length, None for 0 and above 256.
    pub fn new(len: u64) -> Option<Span>
        ensures found { IsSome result ↔ ((1 ≤ len) × (len ≤ greatest_span)) }
        ensures value { IfSome result (λ span. span ≡ len) }
    {
        if (1..=GREATEST_SPAN).contains(&len) {
            Some(Span { len })
        } else {
            None
        }
    }

    /// The span's length, 1 to 256.
    pub fn get(&self) -> u64
        ensures value { result ≡ self.now }
        ensures fits { (1 ≤ result) × (result ≤ greatest_span) }
    {
        self.len
    }
}
