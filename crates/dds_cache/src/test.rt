//! The test by which an access picks.
//!
//! DDS 1.4, 2.2.2.5 (QueryCondition).

ghost use Rattle.std.specs.Prelude.{◌≡◌};

use dds_base::Key;

/// A test on a sample's key and value, by which an access picks. What it answers is a function of the two alone: its
/// `meaning`.
///
/// DDS 1.4, 2.2.2.5 (QueryCondition).
pub trait Test {
    ghost use Rattle.std.specs.Prelude.{◌≡◌, ℕ, List, Bool};
    ghost use Rattle.dds_base.specs.declared.key.Key.{Key};

    /// Which keys and values pass.
    ghost meaning: { Self → Key → List ℕ → Bool };

    /// Whether a sample passes: its key, and the octets of its value, none where it has no data.
    fn passes(&self, key: &Key, value: &[u8]) -> bool
        ensures meaning { result ≡ meaning self.now key.now value.now };
}

/// The test that each sample passes.
#[derive(Clone, Copy)]
pub struct Everything;

impl Test for Everything {
    ghost use Rattle.dds_base.specs.Access.{no_filter};

    ghost meaning = { λ _. no_filter };

    fn passes(&self, _: &Key, _: &[u8]) -> bool {
        true
    }
}
