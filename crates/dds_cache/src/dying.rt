//! The samples without data that a death leaves.
//!
//! DDS 1.4, 2.2.2.5 (instance_state), 2.2.3 (LIVELINESS).

ghost use Rattle.std.specs.Prelude.{◌≡◌, ◌+◌, ◌∷◌, [], List, Some, true, false, length, All, IfSome, ◌<◌, ◌≤◌, vec_len, vec_capacity};
ghost use Rattle.dds_base.specs.declared.happening.Happening.{Happening};
ghost use Rattle.dds_base.specs.declared.happening.Happening.TheVariants.{Died};
ghost use Rattle.dds_base.specs.declared.key.Key.{Key};
ghost use Rattle.dds_base.specs.declared.qos.ReaderQos.{ReaderQos};
ghost use Rattle.dds_instances.specs.Table.{Stands, has_marked, marked_of};
ghost use Rattle.dds_instances.specs.Track.{one_if};
ghost use Rattle.dds_cache.specs.Kept.{Adds, IsSummary, IsFresh, IsLeftBy};
ghost use Rattle.dds_cache.specs.Dying.{AddsOf, TakesDeath};
ghost use Rattle.dds_cache.specs.Finding.{IsSmall};

use crate::kept::{Kept, is_position};
use crate::summary::{Summary, add};
use dds_base::{Handle, Moment, Octets, SamplePosition};
use dds_instances::Instances;
use std::alloc::Global;

/// The sample that a death has left of the instance at a place, if it left one. The instances have taken the death up.
fn marker_of(
    alloc: Global,
    instances: &Instances,
    place: usize,
    writer: Handle,
    moment: Moment,
) -> Option<Kept>
    ensures left { (q : ReaderQos) (h : List Happening) (i : Key)
        → TakesDeath q instances.now writer moment place h i
        → IsLeftBy q (Died writer moment) h i result }
    ensures marked { IfSome result (λ _. has_marked instances.now place ≡ true) }
    ensures small { IfSome result IsSmall }
    ensures unread { IfSome result (λ k. k.is_read ≡ false) }
    ensures stays { IfSome result (λ k. k.is_out ≡ false) }
{
    let known = instances.at(place)?;
    let position = instances.happened();
    if !is_position(known.last_marker, position) {
        return None;
    }
    Some(Kept {
        sample: SamplePosition {
            key: known.key,
            position,
        },
        number: known.accepted_writes,
        is_read: false,
        is_out: false,
        valid_data: false,
        disposed_generation_count: known.disposed_generations,
        no_writers_generation_count: known.no_writers_generations,
        source_timestamp: moment,
        publication_handle: writer,
        value: Octets::from_vec(Vec::new(alloc)),
    })
}

/// Adds the sample that a death has left of the instance at a place, if it left one.
fn add_marker(
    alloc: Global,
    instances: &Instances,
    samples: &mut Vec<Kept>,
    summary: &mut Summary,
    place: usize,
    writer: Handle,
    moment: Moment,
)
    requires room { vec_len samples.old + one_if (has_marked instances.now place)
        ≤ vec_capacity samples.old }
    requires counted { IsSummary samples.old.items summary.old }
    ensures len { vec_len samples.new
        ≤ vec_len samples.old + one_if (has_marked instances.now place) }
    ensures capacity { vec_capacity samples.old ≤ vec_capacity samples.new }
    ensures samples { (q : ReaderQos) (h : List Happening) (i : Key)
        → TakesDeath q instances.now writer moment place h i
        → AddsOf q (Died writer moment ∷ h) (length h + 1)
        (i ∷ []) samples.old.items samples.new.items }
    ensures small { All IsSmall samples.old.items → All IsSmall samples.new.items }
    ensures counted { IsSummary samples.new.items summary.new }
{
    if let Some(kept) = marker_of(alloc, instances, place, writer, moment) {
        add(samples, summary, kept);
    }
}

/// Adds the samples that a death has left. The instances have taken the death up.
pub fn add_markers(
    alloc: Global,
    instances: &Instances,
    samples: &mut Vec<Kept>,
    summary: &mut Summary,
    writer: Handle,
    moment: Moment,
)
    requires room { vec_len samples.old + marked_of instances.now ≤ vec_capacity samples.old }
    requires counted { IsSummary samples.old.items summary.old }
    ensures len { vec_len samples.new ≤ vec_len samples.old + marked_of instances.now }
    ensures capacity { vec_capacity samples.old ≤ vec_capacity samples.new }
    ensures samples { (q : ReaderQos) (h : List Happening)
        → Stands q instances.now (Died writer moment ∷ h)
        → ((i : Key) → IsFresh h i)
        → Adds q (Died writer moment) h samples.old.items samples.new.items }
    ensures small { All IsSmall samples.old.items → All IsSmall samples.new.items }
    ensures counted { IsSummary samples.new.items summary.new }
{
    for place in 0..instances.len() {
        add_marker(alloc, instances, samples, summary, place, writer, moment);
    }
}
