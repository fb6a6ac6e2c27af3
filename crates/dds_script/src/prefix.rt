//! The filters that lines ask for.
//!
//! DDS 1.4, 2.2.2.5 (QueryCondition).

ghost use Rattle.std.specs.Prelude.{◌≡◌};

use dds_base::{Key, Octets};
use dds_conditions::Filter;

/// A filter which values pass that begin with these octets.
///
/// DDS 1.4, 2.2.2.5 (QueryCondition).
#[derive(Drop)]
pub struct Prefix(Octets);

impl Prefix {
    /// The filter by these octets. Takes no memory.
    pub fn new(octets: Octets) -> Self
        ensures octets { result.0 ≡ octets }
    {
        Prefix(octets)
    }
}

impl Filter for Prefix {
    ghost use Rattle.std.specs.Prelude.{nat_eq};
    ghost use Rattle.std.specs.List.{starts_with};

    ghost meaning = { λ p key value. starts_with nat_eq value p.0 };

    fn passes(&self, _: &Key, value: &[u8]) -> bool {
        value.starts_with(self.0.as_slice())
    }
}
