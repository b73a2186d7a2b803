use crate::limit::{BODY_LIMIT, MAX_SHARDS, MAX_WORKERS};
use std::marker::Model;

/// A number from 1 to `MAX`.
#[derive(Clone, Copy, Debug, PartialEq, Eq)]
pub struct Count<const MAX: usize> {
    number: usize,
}

/// A number of shards.
pub type ShardCount = Count<MAX_SHARDS>;

/// A number of workers.
pub type WorkerCount = Count<MAX_WORKERS>;

/// The maximum length in bytes of a body or query that is read.
pub type BodyLimit = Count<BODY_LIMIT>;

impl<const MAX: usize> Model for Count<MAX> {
    ghost use Rattle.std.specs.Prelude.{ℕ, ◌≤◌};

    ghost Value = { ℕ };

    ghost view = { λ c. c.number };

    ghost invariant = { λ c. (1 ≤ c.number) × (c.number ≤ MAX) };

    ghost inverse = { λ n. record { number = n } };
}

impl<const MAX: usize> Count<MAX> {
    ghost use Rattle.std.specs.Prelude.{◌≡◌, ◌≤◌, ◌↔◌, IsSome, IfSome};

    /// Creates the number, or returns `None` if it is not from 1 to `MAX`.
    pub fn new(number: usize) -> Option<Count<MAX>>
        ensures valid { IsSome result ↔ ((1 ≤ number) × (number ≤ MAX)) }
        ensures number { IfSome result (λ c. c ≡ number) }
    {
        if number < 1 || number > MAX {
            return None;
        }
        Some(Count { number })
    }

    /// Creates the number 1.
    pub fn one() -> Count<MAX>
        requires { 1 ≤ MAX }
        ensures { result ≡ 1 }
    {
        Count { number: 1 }
    }

    /// Creates the number `MAX`.
    pub fn greatest() -> Count<MAX>
        requires { 1 ≤ MAX }
        ensures { result ≡ MAX }
    {
        Count { number: MAX }
    }

    /// Returns the number.
    pub fn get(self) -> usize
        ensures same { result ≡ self.entry }
        ensures some { 1 ≤ result }
        ensures in_range { result ≤ MAX }
    {
        self.number
    }
}
