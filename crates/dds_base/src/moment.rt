//! A moment of a peer.
//!
//! DDS 1.4, 2.3.3 (Time_t); RTPS 2.5, 9.3.

ghost use Rattle.std.specs.Prelude.{◌≡◌};

use std::marker::Model;

/// From here on, in units of 2^-32 second, there is no moment of a peer: 2^63.
///
/// DDS 1.4, 2.3.3 (Time_t): its seconds have 32 bits with a sign.
pub const MOMENT_END: u64 = 1 << 63;

/// A moment, in units of 2^-32 second; a peer begins at 0 and takes moments below 2^63.
///
/// DDS 1.4, 2.3.3 (Time_t); RTPS 2.5, 9.3 (seconds, then a fraction of 2^-32).
#[derive(Clone, Copy, Debug, PartialEq, Eq, PartialOrd, Ord)]
pub struct Moment {
    units: u64,
}

impl Model for Moment {
    ghost use Rattle.std.specs.Prelude.{ℕ};

    ghost Value = { ℕ };

    ghost view = { λ s. s.units };

    ghost inverse = { λ n. record { units = n } };
}

impl Moment {
    /// The moment this many units of 2^-32 second after the beginning; a peer takes those below 2^63.
    pub const fn new(units: u64) -> Self
        ensures units { result ≡ units }
    {
        Moment { units }
    }

    /// The units of 2^-32 second since the beginning.
    pub const fn units(self) -> u64
        ensures units { result ≡ self }
    {
        self.units
    }
}
