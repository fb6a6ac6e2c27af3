//! Policy by policy, whether a writer offers what a reader asks for.
//!
//! `specs/Offers.antt` has the table.
//!
//! DDS 1.4, 2.2.3 (supported QoS).

ghost use Rattle.std.specs.Prelude.{◌≡◌};
ghost use Rattle.dds_base.specs.Policies.{units_of};
ghost use Rattle.dds_base.specs.Offers.{is_within, is_given, offers_reliability, offers_durability, offers_presentation, offers_deadline, offers_latency_budget, offers_ownership, offers_liveliness, offers_destination_order, unfit_policies};

use crate::duration::Duration;
use crate::policies::{
    Policies, destination_order_code, durability_code, liveliness_code, ownership_code,
    reliability_code, scope_code,
};
use crate::unfit::UnfitPolicies;
use bitflags::Flags;

/// Whether a time is no longer than another.
fn is_within(offered: Duration, requested: Duration) -> bool
    ensures { result ≡ is_within (units_of offered) (units_of requested) }
{
    match (offered.units(), requested.units()) {
        (_, None) => true,
        (None, Some(_)) => false,
        (Some(offered), Some(requested)) => offered <= requested,
    }
}

/// Whether what is asked for is given.
fn is_given(offered: bool, requested: bool) -> bool
    ensures { result ≡ is_given offered requested }
{
    offered || !requested
}

/// Whether RELIABILITY is offered as it is asked for.
fn offers_reliability(offered: &Policies, requested: &Policies) -> bool
    ensures { result ≡ offers_reliability offered.now requested.now }
{
    reliability_code(requested.reliability) <= reliability_code(offered.reliability)
}

/// Whether DURABILITY is offered as it is asked for.
fn offers_durability(offered: &Policies, requested: &Policies) -> bool
    ensures { result ≡ offers_durability offered.now requested.now }
{
    durability_code(requested.durability) <= durability_code(offered.durability)
}

/// Whether PRESENTATION is offered as it is asked for.
fn offers_presentation(offered: &Policies, requested: &Policies) -> bool
    ensures { result ≡ offers_presentation offered.now requested.now }
{
    let (ours, theirs) = (offered.presentation, requested.presentation);
    scope_code(theirs.scope) <= scope_code(ours.scope)
        && is_given(ours.coherent_access, theirs.coherent_access)
        && is_given(ours.ordered_access, theirs.ordered_access)
}

/// Whether DEADLINE is offered as it is asked for.
fn offers_deadline(offered: &Policies, requested: &Policies) -> bool
    ensures { result ≡ offers_deadline offered.now requested.now }
{
    is_within(offered.deadline, requested.deadline)
}

/// Whether LATENCY_BUDGET is offered as it is asked for.
fn offers_latency_budget(offered: &Policies, requested: &Policies) -> bool
    ensures { result ≡ offers_latency_budget offered.now requested.now }
{
    is_within(offered.latency_budget, requested.latency_budget)
}

/// Whether OWNERSHIP is offered as it is asked for.
fn offers_ownership(offered: &Policies, requested: &Policies) -> bool
    ensures { result ≡ offers_ownership offered.now requested.now }
{
    ownership_code(offered.ownership) == ownership_code(requested.ownership)
}

/// Whether LIVELINESS is offered as it is asked for.
fn offers_liveliness(offered: &Policies, requested: &Policies) -> bool
    ensures { result ≡ offers_liveliness offered.now requested.now }
{
    let (ours, theirs) = (offered.liveliness, requested.liveliness);
    liveliness_code(theirs.kind) <= liveliness_code(ours.kind)
        && is_within(ours.lease, theirs.lease)
}

/// Whether DESTINATION_ORDER is offered as it is asked for.
fn offers_destination_order(offered: &Policies, requested: &Policies) -> bool
    ensures { result ≡ offers_destination_order offered.now requested.now }
{
    let order = destination_order_code(offered.destination_order);
    destination_order_code(requested.destination_order) <= order
}

/// The policies of which a writer with the policies `offered` offers less than a reader with the policies `requested`
/// asks for: of RELIABILITY, DURABILITY, PRESENTATION, DEADLINE, LATENCY_BUDGET, OWNERSHIP, LIVELINESS and
/// DESTINATION_ORDER. The set is empty exactly where it offers each.
///
/// DDS 1.4, 2.2.3 (supported QoS).
pub fn unfit_policies(offered: &Policies, requested: &Policies) -> UnfitPolicies
    // They are those of the table.
    ensures unfit { result ≡ unfit_policies offered.now requested.now }
{
    let mut unfit = UnfitPolicies::empty();
    unfit.set(
        UnfitPolicies::DURABILITY,
        !offers_durability(offered, requested),
    );
    unfit.set(
        UnfitPolicies::PRESENTATION,
        !offers_presentation(offered, requested),
    );
    unfit.set(
        UnfitPolicies::DEADLINE,
        !offers_deadline(offered, requested),
    );
    unfit.set(
        UnfitPolicies::LATENCY_BUDGET,
        !offers_latency_budget(offered, requested),
    );
    unfit.set(
        UnfitPolicies::OWNERSHIP,
        !offers_ownership(offered, requested),
    );
    unfit.set(
        UnfitPolicies::LIVELINESS,
        !offers_liveliness(offered, requested),
    );
    unfit.set(
        UnfitPolicies::RELIABILITY,
        !offers_reliability(offered, requested),
    );
    unfit.set(
        UnfitPolicies::DESTINATION_ORDER,
        !offers_destination_order(offered, requested),
    );
    unfit
}
