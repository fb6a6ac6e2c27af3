//! What a query condition asks of a sample.
//!
//! DDS 1.4, 2.2.2.5 (QueryCondition).

ghost use Rattle.std.specs.Prelude.{◌≡◌};

use dds_base::Key;

/// A test on a sample's key and value, in place of a query expression.
///
/// A type of the application's own may be one, and is then handed over in a box. What it answers is a function of the
/// key and the value alone: its `meaning`, which nothing that it is asked can change.
///
/// DDS 1.4, 2.2.2.5 (QueryCondition).
pub trait Filter: Drop {
    ghost use Rattle.std.specs.Prelude.{◌≡◌, ℕ, List, Bool};
    ghost use Rattle.dds_base.specs.declared.key.Key.{Key};

    /// Which keys and values pass.
    ghost meaning: { Self → Key → List ℕ → Bool };

    /// Whether a sample passes: its key, and the octets of its value, none where it has no data.
    fn passes(&self, key: &Key, value: &[u8]) -> bool
        ensures meaning { result ≡ meaning self.now key.now value.now };
}

impl Filter for Box<dyn Filter + Send> {
    ghost meaning = { λ b. (Filter-box b).meaning b.value };

    fn passes(&self, key: &Key, value: &[u8]) -> bool {
        (**self).passes(key, value)
    }
}

/// The filters of a peer, by their numbers from 1. What they answer is a function of the number, the key and the value
/// alone: their `meaning`.
///
/// DDS 1.4, 2.2.2.5 (QueryCondition).
pub trait Filters {
    ghost use Rattle.std.specs.Prelude.{◌≡◌, ℕ, List, Bool};
    ghost use Rattle.dds_base.specs.declared.key.Key.{Key};

    /// Which keys and values pass the filter of a number.
    ghost meaning: { Self → ℕ → Key → List ℕ → Bool };

    /// Whether a sample passes the filter of this number: its key, and the octets of its value, none where it has no
    /// data.
    fn passes(&self, filter: u32, key: &Key, value: &[u8]) -> bool
        ensures meaning { result ≡ meaning self.now filter key.now value.now };
}

/// No filters: nothing passes one.
#[derive(Clone, Copy)]
pub struct NoFilters;

impl Filters for NoFilters {
    ghost use Rattle.dds_conditions.specs.NoFilters.{no_filters};

    ghost meaning = { λ _. no_filters };

    fn passes(&self, _: u32, _: &Key, _: &[u8]) -> bool {
        false
    }
}
