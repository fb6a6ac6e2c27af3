//! The handle of an instance or of a writer.
//!
//! DDS 1.4, 2.2.2.5 (instance_handle, publication_handle).

ghost use Rattle.std.specs.Prelude.{◌≡◌};

use std::marker::Model;

/// The handle of an instance, or of a matched writer, at one reader: both are counted from 1, and 0 names none.
///
/// DDS 1.4, 2.2.2.5 (SampleInfo: instance_handle, publication_handle), 2.3.3 (HANDLE_NIL).
#[derive(Clone, Copy, Debug, PartialEq, Eq)]
pub struct Handle {
    number: u64,
}

impl Model for Handle {
    ghost use Rattle.std.specs.Prelude.{ℕ};

    ghost Value = { ℕ };

    ghost view = { λ s. s.number };

    ghost inverse = { λ n. record { number = n } };
}

impl Handle {
    /// HANDLE_NIL: it names nothing.
    pub const NIL: Handle = Handle { number: 0 };

    /// The handle of this number, from 1; of 0 it is `NIL`.
    pub const fn new(number: u64) -> Self
        ensures number { result ≡ number }
    {
        Handle { number }
    }

    /// The number, 0 of `NIL`.
    pub const fn number(self) -> u64
        ensures number { result ≡ self }
    {
        self.number
    }
}
