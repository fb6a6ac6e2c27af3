//! Sets of policies that do not fit.
//!
//! DDS 1.4, 2.3.3 (QosPolicyId_t).

ghost use Rattle.std.specs.Prelude.{⊤, ◌≡◌, ◌<◌, [], ◌∷◌, codes};

use arrayvec::ArrayVec;
use bitflags::{Flag, Flags, bitflag_items};

/// The policies of which a writer offers less than a reader asks for: of each the bit that its id numbers, counted
/// from 0.
///
/// DDS 1.4, 2.2.4.1 (OFFERED_INCOMPATIBLE_QOS, REQUESTED_INCOMPATIBLE_QOS), 2.3.3 (DURABILITY_QOS_POLICY_ID and kin).
/// Bits without a meaning are kept and name nothing.
#[derive(Clone, Copy, Debug, PartialEq, Eq)]
pub struct UnfitPolicies(u32);

bitflag_items! {
    impl UnfitPolicies: u32 {
        const DURABILITY = 4;
        const PRESENTATION = 8;
        const DEADLINE = 16;
        const LATENCY_BUDGET = 32;
        const OWNERSHIP = 64;
        const LIVELINESS = 256;
        const RELIABILITY = 2048;
        const DESTINATION_ORDER = 4096;
    }
}

impl Flags for UnfitPolicies {
    type Bits = u32;

    ghost exact = { ⊤ };

    ghost table = { (codes "DURABILITY", 4) ∷ (codes "PRESENTATION", 8) ∷ (codes "DEADLINE", 16) ∷ (codes "LATENCY_BUDGET", 32) ∷ (codes "OWNERSHIP", 64) ∷ (codes "LIVELINESS", 256) ∷ (codes "RELIABILITY", 2048) ∷ (codes "DESTINATION_ORDER", 4096) ∷ [] };

    ghost set_of = { λ unfit. unfit.0 };

    fn flags<'a>() -> &'a [Flag<UnfitPolicies>] {
        UnfitPolicies::FLAGS
    }

    fn bits(&self) -> u32 {
        self.0
    }

    fn from_bits_retain(bits: u32) -> UnfitPolicies {
        UnfitPolicies(bits)
    }
}

impl UnfitPolicies {
    ghost use Rattle.dds_base.specs.Offers.{has_policy, ids_of};

    /// The ids of the policies that are compared, ascending.
    ///
    /// DDS 1.4, 2.3.3 (DURABILITY_QOS_POLICY_ID and kin).
    const IDS: [u32; 8] = [2, 3, 4, 5, 6, 8, 11, 12];

    /// Whether the policy of this id is one.
    fn has(self, id: u32) -> bool
        requires { id < 32 }
        ensures { result ≡ has_policy self id }
    {
        self.contains(UnfitPolicies(1 << id))
    }

    /// The ids of the policies, ascending.
    ///
    /// DDS 1.4, 2.3.3 (DURABILITY_QOS_POLICY_ID and kin).
    pub fn ids(self) -> ArrayVec<u32, 8>
        // They are those of the bits.
        ensures ids { result.items ≡ ids_of self }
    {
        let mut ids = ArrayVec::new();
        for id in UnfitPolicies::IDS {
            if self.has(id) {
                ids.push(id);
            }
        }
        ids
    }
}
