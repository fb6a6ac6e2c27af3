//! How a read or a take is entered.
//!
//! DDS 1.4, 2.2.2.5 (read: samples are READ afterwards; take: they are gone).

ghost use Rattle.std.specs.Prelude.{◌≡◌, ◌≤◌, ◌<◌, ◌+◌, ◌^◌, ◌⊎◌, ◌∷◌, List, All, length, vec_len, vec_capacity};
ghost use Rattle.dds_base.specs.declared.happening.Happening.{Happening};
ghost use Rattle.dds_base.specs.declared.happening.Happening.TheVariants.{Took};
ghost use Rattle.dds_instances.specs.Table.{alive_of, happened_of, room_of};
ghost use Rattle.dds_cache.specs.declared.kept.Kept.{Kept};
ghost use Rattle.dds_cache.specs.Finding.{Holds, IsSmall};
ghost use Rattle.dds_cache.specs.Picking.{HoldsFound, HoldsMarked, IsDelivered, IsGathered};
ghost use Rattle.dds_cache.specs.Kept.{IsSummary};
ghost use Rattle.dds_cache.specs.Standing.{entry_of};

use crate::access_kind::AccessKind;
use crate::collection::Access;
use crate::ending::hold_present;
use crate::kept::Kept;
use crate::returned::settle;
use crate::summary::Summary;
use crate::sweeping::{let_go, let_out_go};
use dds_base::{ReaderQos, SamplePosition};
use dds_instances::Instances;
use std::alloc::Global;

/// Enters a take of these samples, which are marked, and lets those of the lives go that it ends; those that takes returned
/// go too where they are more than half of all. There is room for it, or it can be counted.
fn take_out(
    instances: &mut Instances,
    qos: &ReaderQos,
    samples: &mut Vec<Kept>,
    summary: &mut Summary,
    taken: &[SamplePosition],
)
    requires entry { (1 ≤ room_of instances.old) ⊎ (happened_of instances.old + 1 < 2 ^ 64) }
    requires counted { IsSummary samples.old.items summary.old }
    ensures holds { (h : List Happening) (ks : List Kept)
        → HoldsMarked qos.now instances.old taken.now ks samples.old.items h
        → Holds qos.now instances.new samples.new.items (Took taken.now ∷ h) }
    ensures room { room_of instances.old ≤ room_of instances.new + 1 }
    ensures alive { alive_of instances.new ≤ alive_of instances.old }
    ensures len { vec_len samples.new ≤ vec_len samples.old }
    ensures capacity { vec_capacity samples.new ≡ vec_capacity samples.old }
    ensures small { All IsSmall samples.old.items → All IsSmall samples.new.items }
    ensures counted { IsSummary samples.new.items summary.new }
{
    let before = instances.len();
    if instances.is_any_left(taken) {
        hold_present(instances, qos, samples);
    }
    instances.took(taken).unwrap();
    let_go(instances, qos, before, samples, summary);
    let_out_go(samples, summary);
}

/// Enters that an access of this kind returned what it found, and makes it whole. There is room for it, or it can be
/// counted.
pub fn enter_access(
    alloc: Global,
    kind: AccessKind,
    instances: &mut Instances,
    qos: &ReaderQos,
    samples: &mut Vec<Kept>,
    summary: &mut Summary,
    access: &mut Access,
)
    requires entry { (1 ≤ room_of instances.old) ⊎ (happened_of instances.old + 1 < 2 ^ 64) }
    requires gathered { IsGathered (length samples.old.items) access.old }
    requires counted { IsSummary samples.old.items summary.old }
    ensures holds { (h : List Happening)
        → HoldsFound qos.now instances.old samples.old.items access.old h
        → Holds qos.now instances.new samples.new.items
        (entry_of kind access.old.positions.items ∷ h) }
    ensures positions { access.new.positions ≡ access.old.positions }
    ensures delivered { IsDelivered kind samples.old.items access.old access.new }
    ensures room { room_of instances.old ≤ room_of instances.new + 1 }
    ensures alive { alive_of instances.new ≤ alive_of instances.old }
    ensures len { vec_len samples.new ≤ vec_len samples.old }
    ensures capacity { vec_capacity samples.old ≤ vec_capacity samples.new }
    ensures small { All IsSmall samples.old.items → All IsSmall samples.new.items }
    ensures counted { IsSummary samples.new.items summary.new }
{
    settle(alloc, kind, samples, summary, access);
    match kind {
        AccessKind::Read => instances.read(access.positions.as_slice()).unwrap(),
        AccessKind::Take => take_out(
            instances,
            qos,
            samples,
            summary,
            access.positions.as_slice(),
        ),
    }
}
