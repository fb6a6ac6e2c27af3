//! The samples that an entry leaves.
//!
//! DDS 1.4, 2.2.2.5 (samples), 2.2.3 (HISTORY).

ghost use Rattle.std.specs.Prelude.{◌≡◌, ◌+◌, ◌^◌, ◌∷◌, [], List, false, All, IfSome, ◌<◌, ◌≤◌, vec_len, vec_capacity};
ghost use Rattle.dds_base.specs.declared.happening.Happening.{Happening};
ghost use Rattle.dds_base.specs.declared.happening.Happening.TheVariants.{Came};
ghost use Rattle.dds_base.specs.Happening.{is_read};
ghost use Rattle.dds_base.specs.Life.{ends_with_write};
ghost use Rattle.dds_instances.specs.Table.{Stands};
ghost use Rattle.dds_cache.specs.Arriving.{LeavesWrite, TakesChange, kept_of};
ghost use Rattle.dds_cache.specs.Kept.{IsSummary, IsLeftBy, value_if, Adds};
ghost use Rattle.dds_cache.specs.Finding.{IsSmall};

use crate::kept::Kept;
use crate::summary::{Summary, add};
use dds_base::{Arrival, ChangeKind, Octets, ReaderQos, SamplePosition};
use dds_instances::{Instances, KnownInstance};
use std::alloc::Global;

/// Whether a change will be an accepted write.
pub fn is_accepted_write(instances: &Instances, qos: &ReaderQos, arrival: &Arrival) -> bool
    ensures { (h : List Happening) → Stands qos.now instances.now h
        → result ≡ ends_with_write qos.now arrival.now.change.key (Came arrival.now ∷ h) }
{
    match arrival.change.kind {
        ChangeKind::Write => instances.accepts(qos, arrival),
        _ => false,
    }
}

/// The value, if it counts, else the empty one.
fn value_of(alloc: Global, value: Octets, is_write: bool) -> Octets
    ensures { result ≡ value_if is_write value }
{
    if is_write {
        value
    } else {
        Octets::from_vec(Vec::new(alloc))
    }
}

/// What a change has left of its instance, be it present or not, by what is known of that once the change has come, as the
/// entry of this position.
#[inline(always)]
fn kept_of(
    alloc: Global,
    known: &KnownInstance,
    position: u64,
    arrival: Arrival,
    is_write: bool,
) -> Kept
    ensures { result ≡ kept_of known.now position arrival is_write }
{
    let Arrival { writer, change, .. } = arrival;
    Kept {
        sample: SamplePosition {
            key: change.key,
            position,
        },
        number: known.accepted_writes,
        is_read: false,
        is_out: false,
        valid_data: is_write,
        disposed_generation_count: known.disposed_generations,
        no_writers_generation_count: known.no_writers_generations,
        source_timestamp: change.source_timestamp,
        publication_handle: writer,
        value: value_of(alloc, change.value, is_write),
    }
}

/// The sample that a change has left, if it is present. The instances have taken the change up.
pub fn left_by(
    alloc: Global,
    instances: &Instances,
    qos: &ReaderQos,
    arrival: Arrival,
    is_write: bool,
) -> Option<Kept>
    ensures left { (h : List Happening) → TakesChange qos.now instances.now arrival is_write h
        → IsLeftBy qos.now (Came arrival) h arrival.change.key result }
    ensures small { IfSome result IsSmall }
    ensures unread { IfSome result (λ k. k.is_read ≡ false) }
    ensures stays { IfSome result (λ k. k.is_out ≡ false) }
{
    match instances.known(arrival.change.key) {
        None => None,
        Some(known) => {
            let kept = kept_of(alloc, &known, instances.happened(), arrival, is_write);
            if kept.is_live(qos, &known) {
                Some(kept)
            } else {
                None
            }
        }
    }
}

/// Adds the sample that a change has left, if it is present. The instances have taken the change up.
pub fn add_left(
    alloc: Global,
    instances: &Instances,
    qos: &ReaderQos,
    samples: &mut Vec<Kept>,
    summary: &mut Summary,
    arrival: Arrival,
    is_write: bool,
)
    requires room { vec_len samples.old < vec_capacity samples.old }
    requires counted { IsSummary samples.old.items summary.old }
    ensures len { vec_len samples.new ≤ vec_len samples.old + 1 }
    ensures capacity { vec_capacity samples.old ≤ vec_capacity samples.new }
    ensures samples { (h : List Happening) → TakesChange qos.now instances.now arrival is_write h
        → Adds qos.now (Came arrival) h samples.old.items samples.new.items }
    ensures small { All IsSmall samples.old.items → All IsSmall samples.new.items }
    ensures counted { IsSummary samples.new.items summary.new }
{
    if let Some(kept) = left_by(alloc, instances, qos, arrival, is_write) {
        add(samples, summary, kept);
    }
}

/// Adds the sample that one more write of an instance has left, where the history keeps any: by what is known of the instance
/// once the write has come, as the entry of this position.
#[inline(always)]
pub fn add_write(
    alloc: Global,
    known: &KnownInstance,
    position: u64,
    samples: &mut Vec<Kept>,
    summary: &mut Summary,
    arrival: Arrival,
)
    requires room { vec_len samples.old < vec_capacity samples.old }
    requires counted { IsSummary samples.old.items summary.old }
    requires generations { known.now.disposed_generations + known.now.no_writers_generations < 2 ^ 64 }
    ensures len { vec_len samples.new ≡ vec_len samples.old + 1 }
    ensures capacity { vec_capacity samples.old ≤ vec_capacity samples.new }
    ensures samples { (q : ReaderQos) (h : List Happening) → LeavesWrite q known.now position arrival h
        → Adds q (Came arrival) h samples.old.items samples.new.items }
    ensures small { All IsSmall samples.old.items → All IsSmall samples.new.items }
    ensures counted { IsSummary samples.new.items summary.new }
{
    add(
        samples,
        summary,
        kept_of(alloc, known, position, arrival, true),
    );
}
