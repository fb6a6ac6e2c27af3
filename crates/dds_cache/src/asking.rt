//! Whether masks alone tell that no sample is asked for.
//!
//! DDS 1.4, 2.2.2.5 (sample, view and instance states).

ghost use Rattle.std.specs.Prelude.{◌≡◌, List, Some, false, true, All, slice_get};
ghost use Rattle.dds_base.specs.declared.happening.Happening.{Happening};
ghost use Rattle.dds_base.specs.declared.key.Key.{Key};
ghost use Rattle.dds_base.specs.declared.qos.ReaderQos.{ReaderQos};
ghost use Rattle.dds_base.specs.Instance.{known_instances};
ghost use Rattle.dds_instances.specs.Table.{Stands};
ghost use Rattle.dds_cache.specs.Kept.{IsSummary};
ghost use Rattle.dds_cache.specs.Finding.{asks_for_states, Holds, IsUnmet};

use crate::kept::Kept;
use crate::masks::asks_for_states;
use crate::summary::Summary;
use dds_base::Masks;
use dds_instances::Instances;

/// Whether the masks ask for the view state and the state of the instance at a place.
fn asks_for_place(instances: &Instances, masks: Masks, place: usize) -> bool
    ensures { (q : ReaderQos) (h : List Happening) (i : Key) → Stands q instances.now h
        → slice_get (known_instances q h) place ≡ Some i → result ≡ asks_for_states q h masks i }
{
    match instances.at(place) {
        None => false,
        Some(known) => asks_for_states(masks, known.view, Some(known.state)),
    }
}

/// Whether the masks ask for the view state and the state of some known instance. It goes once over the instances.
fn asks_for_any(instances: &Instances, masks: Masks) -> bool
    ensures { (q : ReaderQos) (h : List Happening) → Stands q instances.now h
        → result ≡ false
        → All (λ i. asks_for_states q h masks i ≡ false) (known_instances q h) }
{
    for place in 0..instances.len() {
        if asks_for_place(instances, masks, place) {
            return true;
        }
    }
    false
}

/// Whether no kept sample meets the masks, as far as they tell it alone: by how many of the samples were read, and
/// where fewer instances are known than samples are kept, by the states of the instances. It doesn't go over the
/// samples.
pub fn is_none_asked(
    instances: &Instances,
    samples: &[Kept],
    summary: &Summary,
    masks: Masks,
) -> bool
    requires counted { IsSummary samples.now summary.now }
    ensures { (q : ReaderQos) (h : List Happening) → Holds q instances.now samples.now h
        → result ≡ true
        → All (IsUnmet q h masks) samples.now }
{
    if summary.exclude(samples, masks.samples) {
        return true;
    }
    instances.len() < samples.len() && !asks_for_any(instances, masks)
}
