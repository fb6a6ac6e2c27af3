//! The turn of a change among those of its key.
//!
//! DDS 1.4, 2.2.3 (HISTORY).

ghost use Rattle.std.specs.Prelude.{◌≡◌, ◌<◌, ◌≤◌, ◌^◌};

use std::marker::Model;

/// So many places are told apart beside a turn.
const PLACES: u64 = 1 << 15;

/// The turn of a change among those of its key, 2^48 at most, and the place at which its key was counted, in eight octets.
/// The place is a hint, which no contract sees: of one from `PLACES` on only the low bits are kept.
#[derive(Drop)]
pub struct Turn {
    /// The number of the turn times `PLACES`, and the low bits of the place.
    packed: u64,
}

impl Model for Turn {
    ghost use Rattle.std.specs.Prelude.{ℕ, ◌/◌, ◌^◌};

    ghost Value = { ℕ };

    ghost view = { λ t. t.packed / 2 ^ 15 };
}

impl Turn {
    /// The turn of this number, of a key that was counted at this place.
    #[inline(always)]
    pub fn new(number: u64, place: usize) -> Self
        ensures { number ≤ 2 ^ 48 → result ≡ number }
    {
        Turn {
            packed: number
                .wrapping_mul(PLACES)
                .wrapping_add(place as u64 % PLACES),
        }
    }

    /// So many changes of its key were made with it.
    #[inline(always)]
    pub fn number(&self) -> u64
        ensures number { result ≡ self.now }
        ensures bits { result < 2 ^ 49 }
    {
        self.packed / PLACES
    }

    /// The place at which its key was counted, if that is below `PLACES`.
    #[inline(always)]
    pub fn place(&self) -> usize {
        (self.packed % PLACES) as usize
    }
}
