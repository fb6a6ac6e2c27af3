//! A take of all where one sample alone is kept: nothing has to be searched or sorted, and afterwards nothing is kept.
//!
//! DDS 1.4, 2.2.2.5 (take).

ghost use Rattle.std.specs.Prelude.{false, ◌≡◌, ◌+◌, ◌≤◌, ◌<◌, ◌^◌, List, [], ◌∷◌, All, IfSome, length, slice_get, vec_len, vec_capacity};
ghost use Rattle.dds_base.specs.declared.happening.Happening.{Happening};
ghost use Rattle.dds_base.specs.declared.happening.Happening.TheVariants.{Took};
ghost use Rattle.dds_base.specs.declared.qos.ReaderQos.{ReaderQos};
ghost use Rattle.dds_base.specs.Access.{own_generations};
ghost use Rattle.dds_instances.specs.Table.{Stands, alive_of, is_any_left, room_of};
ghost use Rattle.dds_cache.specs.declared.access_kind.AccessKind.TheVariants.{Read};
ghost use Rattle.dds_cache.specs.Finding.{Holds, IsSmall};
ghost use Rattle.dds_cache.specs.Kept.{IsSummary};
ghost use Rattle.dds_cache.specs.Only.{HasState, HoldsOnly, IsOnly, IsTakeOfAll};
ghost use Rattle.dds_cache.specs.Picking.{value_at};

use crate::access::{Candidate, as_candidate};
use crate::access_kind::AccessKind;
use crate::kept::Kept;
use crate::summary::Summary;
use crate::test::Test;
use dds_base::{InstanceState, Masks, Octets, ReaderQos, SamplePosition, Selection};
use dds_instances::Instances;
use std::alloc::Global;
use std::slice;

/// The masks that a take of all has; none of another access, and of one that is refused.
pub fn masks_of_all(kind: AccessKind, selection: &Selection) -> Option<Masks>
    ensures { IfSome result (IsTakeOfAll kind selection.now) }
{
    let Selection::Any { max, masks } = *selection else {
        return None;
    };
    match kind {
        AccessKind::Take => {
            if max == -1 || 0 < max {
                Some(masks)
            } else {
                None
            }
        }
        AccessKind::Read => None,
    }
}

/// Whether a take of this sample may end the life of its instance. Somebody is registered for one that is alive, which is
/// not looked up once more.
#[inline(always)]
fn may_end(instances: &Instances, only: &Candidate) -> bool
    ensures { result ≡ false → (q : ReaderQos) (h : List Happening) → Stands q instances.now h
        → HasState q h only.now → is_any_left q h (only.now.sample ∷ []) ≡ false }
{
    match only.picked.instance_state {
        InstanceState::Alive => false,
        _ => instances.is_any_left(slice::from_ref(&only.sample)),
    }
}

/// The only kept sample, where it is present, meets the masks and passes the test, and a take of it ends no life, as
/// somebody is registered for its instance.
#[inline(always)]
pub fn find_only<T: Test>(
    instances: &Instances,
    qos: &ReaderQos,
    masks: Masks,
    test: &T,
    samples: &[Kept],
) -> Option<Candidate>
    requires small { All IsSmall samples.now }
    ensures one { IfSome result (λ only. length samples.now ≡ 1) }
    ensures placed { IfSome result (λ only. (only.at ≡ 0) × (own_generations only.picked < 2 ^ 64)) }
    ensures only { IfSome result (λ only. (h : List Happening)
        → Holds qos.now instances.now samples.now h
        → IsOnly qos.now h masks (T.meaning test.now) samples.now only) }
{
    let [kept] = samples else {
        return None;
    };
    let Some(only) = as_candidate(instances, qos, masks, test, kept, 0) else {
        return None;
    };
    if may_end(instances, &only) {
        return None;
    }
    Some(only)
}

/// Enters a take of the only kept sample, which ends no life, and gives its value away. There is room for it; nothing is
/// kept then.
#[inline(always)]
pub fn take_last(
    alloc: Global,
    instances: &mut Instances,
    samples: &mut Vec<Kept>,
    summary: &mut Summary,
    sample: SamplePosition,
) -> Octets
    requires room { 1 ≤ room_of instances.old }
    requires one { length samples.old.items ≡ 1 }
    ensures holds { (q : ReaderQos) (h : List Happening)
        → HoldsOnly q instances.old sample samples.old.items h
        → Holds q instances.new samples.new.items (Took (sample ∷ []) ∷ h) }
    ensures value { result ≡ value_at Read (slice_get samples.old.items 0) }
    ensures room { room_of instances.old ≤ room_of instances.new + 1 }
    ensures alive { alive_of instances.new ≤ alive_of instances.old }
    ensures none { samples.new.items ≡ [] }
    ensures len { vec_len samples.new ≡ 0 }
    ensures capacity { vec_capacity samples.new ≡ vec_capacity samples.old }
    ensures counted { IsSummary samples.new.items summary.new }
{
    instances.took(slice::from_ref(&sample)).unwrap();
    let last = samples.pop();
    summary.renew(samples);
    match last {
        Some(Kept { value, .. }) => value,
        None => Octets::from_vec(Vec::new(alloc)),
    }
}
