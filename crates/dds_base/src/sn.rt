//! The number of a change.
//!
//! RTPS 2.5, 8.2 (SequenceNumber_t).

ghost use Rattle.std.specs.Prelude.{◌≡◌};

use std::marker::Model;

/// The greatest number that a message names: 2^62.
///
/// RTPS 2.5, 8.3.5.4 (SequenceNumber): 64 bits with a sign, so the standard's numbers end below 2^63. The lower bound is
/// this project's: no sum of a number and a place of a set passes 2^63.
pub const MAX_SN: u64 = 1 << 62;

/// The number of a change of one writer, counted from 1.
///
/// RTPS 2.5, 8.2 (SequenceNumber_t).
#[derive(Clone, Copy, Debug, PartialEq, Eq, PartialOrd, Ord)]
pub struct Sn {
    number: u64,
}

impl Model for Sn {
    ghost use Rattle.std.specs.Prelude.{ℕ};

    ghost Value = { ℕ };

    ghost view = { λ s. s.number };

    ghost inverse = { λ n. record { number = n } };
}

impl Sn {
    /// The number of a change, from 1 to 2^48; a greater one, or 0, is no change's.
    pub const fn new(number: u64) -> Self
        ensures number { result ≡ number }
    {
        Sn { number }
    }

    /// The number as an integer.
    pub const fn number(self) -> u64
        ensures number { result ≡ self }
    {
        self.number
    }
}
