//! The policies that a writer and a reader have to agree on.
//!
//! DDS 1.4, 2.2.3 (supported QoS); DDS-XTypes 1.3, 7.6.3.1.1 (DATA_REPRESENTATION).

ghost use Rattle.std.specs.Prelude.{◌≡◌};
ghost use Rattle.dds_policies.specs.Offers.{unfit};

use bitflags::Flags;
use dds_base::{Policies, UnfitPolicies, unfit_policies};

/// A policy of which a writer offers less than a reader asks for.
///
/// DDS 1.4, 2.2.3 (supported QoS).
#[derive(Clone, Copy, Debug, PartialEq, Eq)]
pub enum Misfit {
    /// BEST_EFFORT is offered, RELIABLE is asked for.
    Reliability,
    /// Less is kept for readers that come later.
    Durability,
    /// A smaller scope, or neither coherent nor ordered access where that is asked for.
    Presentation,
    /// A longer period.
    Deadline,
    /// A longer duration.
    LatencyBudget,
    /// One is SHARED, the other EXCLUSIVE.
    Ownership,
    /// A kind by which less is known, or a longer lease.
    Liveliness,
    /// The order by reception is offered, that by source is asked for.
    DestinationOrder,
    /// What the writer writes first is nothing that the reader reads. This policy is for discovery alone.
    DataRepresentation,
}

/// The policies that are compared, in the order in which the first misfit is told.
const IN_ORDER: [(UnfitPolicies, Misfit); 8] = [
    (UnfitPolicies::RELIABILITY, Misfit::Reliability),
    (UnfitPolicies::DURABILITY, Misfit::Durability),
    (UnfitPolicies::PRESENTATION, Misfit::Presentation),
    (UnfitPolicies::DEADLINE, Misfit::Deadline),
    (UnfitPolicies::LATENCY_BUDGET, Misfit::LatencyBudget),
    (UnfitPolicies::OWNERSHIP, Misfit::Ownership),
    (UnfitPolicies::LIVELINESS, Misfit::Liveliness),
    (UnfitPolicies::DESTINATION_ORDER, Misfit::DestinationOrder),
];

/// The first policy of which a writer with the policies `offered` offers less than a reader with the policies
/// `requested` asks for: of RELIABILITY, DURABILITY, PRESENTATION, DEADLINE, LATENCY_BUDGET, OWNERSHIP, LIVELINESS and
/// DESTINATION_ORDER, in this order. `None` where it offers each.
///
/// DDS 1.4, 2.2.3 (supported QoS).
pub fn unfit(offered: &Policies, requested: &Policies) -> Option<Misfit>
    // It is the first of the table's.
    ensures first { result ≡ unfit offered.now requested.now }
{
    let unfit = unfit_policies(offered, requested);
    for (policy, misfit) in IN_ORDER {
        if unfit.contains(policy) {
            return Some(misfit);
        }
    }
    None
}
