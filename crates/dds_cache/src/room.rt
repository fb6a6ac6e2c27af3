//! Whether there is room for a change.
//!
//! DDS 1.4, 2.2.3 (RESOURCE_LIMITS).

ghost use Rattle.std.specs.Prelude.{◌≡◌, ◌≤◌, ◌+◌, ◌-◌, ◌^◌, ◌∷◌, ◌&&◌, min, List, length, true};
ghost use Rattle.std.specs.List.{count_by};
ghost use Rattle.dds_base.specs.declared.happening.Arrival.{Arrival};
ghost use Rattle.dds_base.specs.Happening.{same_key};
ghost use Rattle.dds_base.specs.declared.happening.Happening.{Happening};
ghost use Rattle.dds_base.specs.declared.happening.Happening.TheVariants.{Came};
ghost use Rattle.dds_base.specs.declared.qos.ReaderQos.{ReaderQos};
ghost use Rattle.dds_base.specs.Happening.{arrivals as arrivals_of};
ghost use Rattle.dds_base.specs.Instance.{known_instances};
ghost use Rattle.dds_base.specs.Presence.{has_room, is_within, present_writes};
ghost use Rattle.dds_instances.specs.Table.{Stands, Table};
ghost use Rattle.dds_instances.specs.Track.{one_if};
ghost use Rattle.dds_cache.specs.Arriving.{AwaitsAccepted, AwaitsChange};
ghost use Rattle.dds_cache.specs.Finding.{Holds};
ghost use Rattle.dds_cache.specs.Kept.{IsSummary, IsFresh, IsKept};
ghost use Rattle.dds_cache.specs.Chains.{AreChainsOf};
ghost use Rattle.dds_cache.specs.Pushing.{AwaitsOwn, is_pushed};
ghost use Rattle.dds_cache.specs.Room.{is_present_write, present_writes_after};

use crate::arriving::is_accepted_write;
use crate::chains::Chains;
use crate::ending::is_end;
use crate::kept::{Kept, is_kept_after};
use crate::summary::Summary;
use dds_base::{Arrival, ReaderQos};
use dds_instances::{Instances, KnownInstance};

/// How many changes came once one more has; the count stays at its greatest value.
pub fn count_arrival(arrivals: u64) -> u64
    ensures { result ≡ min (arrivals + 1) (2 ^ 64 - 1) }
{
    arrivals.saturating_add(1)
}

/// Whether the number, or the one after it, keeps to the limit, if there is one.
fn keeps_to(limit: Option<u32>, count: usize, one_more: bool) -> bool
    ensures { result ≡ is_within limit (count + one_if one_more) }
{
    match limit {
        None => true,
        Some(limit) => {
            if one_more {
                count < limit as usize
            } else {
                count <= limit as usize
            }
        }
    }
}

/// Whether there may be so many instances after an accepted change.
fn instances_fit(
    instances: &Instances,
    qos: &ReaderQos,
    arrival: &Arrival,
    samples: &[Kept],
    summary: &Summary,
) -> bool
    requires counted { IsSummary samples.now summary.now }
    ensures { (h : List Happening)
        → AwaitsAccepted qos.now instances.now samples.now arrival.now h
        → result
        ≡ is_within qos.now.max_instances
        (length (known_instances qos.now (Came arrival.now ∷ h))) }
{
    // With fewer instances than may be known, there is room for one more.
    if keeps_to(qos.max_instances, instances.len(), true) {
        return true;
    }
    let others = if instances.known(arrival.change.key).is_none() {
        instances.len()
    } else {
        instances.len().saturating_sub(1)
    };
    let stays = !is_end(instances, qos, samples, summary, arrival);
    keeps_to(qos.max_instances, others, stays)
}

/// Whether a kept sample is a write of an instance that is present after a change of it.
fn stays_after(
    qos: &ReaderQos,
    known: &KnownInstance,
    is_write: bool,
    is_marked: bool,
    kept: &Kept,
) -> bool
    ensures { (a : Arrival) (h : List Happening) → AwaitsOwn qos.now known.now a is_write is_marked h
        → IsKept qos.now h kept.now
        → result
        ≡ (same_key kept.now.sample.key known.now.key && is_present_write qos.now (Came a ∷ h) kept.now) }
{
    let is_own = kept.sample.key == known.key;
    is_own & kept.is_write_after(qos, known, is_write, is_marked)
}

/// How many of the kept samples have data and are not gone, and are pushed out by a change of an instance: those of it, from
/// its first one on, before the first that stays.
fn count_pushed(
    qos: &ReaderQos,
    known: &KnownInstance,
    is_write: bool,
    is_marked: bool,
    samples: &[Kept],
    chains: &Chains,
) -> usize
    requires chains { AreChainsOf samples.now chains.now }
    ensures { (table : Table) (a : Arrival) (h : List Happening)
        → AwaitsOwn qos.now known.now a is_write is_marked h
        → Holds qos.now table samples.now h
        → result ≡ count_by (is_pushed qos.now a h) samples.now }
{
    let mut count = 0;
    let mut place = chains.first(known.key, false);
    while place < samples.len() && !stays_after(qos, known, is_write, is_marked, &samples[place]) {
        let kept = &samples[place];
        let is_own = kept.sample.key == known.key;
        count += usize::from(is_own & kept.has_data());
        place = chains.next(samples, known.key, place);
    }
    count
}

/// How many of the kept samples are writes that are present after a change: those that have data and are not gone, less
/// those that it pushes out.
fn writes_left(
    instances: &Instances,
    qos: &ReaderQos,
    arrival: &Arrival,
    is_write: bool,
    is_marked: bool,
    samples: &[Kept],
    summary: &Summary,
) -> usize
    requires counted { IsSummary samples.now summary.now }
    ensures { (h : List Happening)
        → AwaitsChange qos.now instances.now arrival.now is_write is_marked h
        → Holds qos.now instances.now samples.now h
        → result ≡ present_writes_after qos.now arrival.now h samples.now }
{
    match instances.known(arrival.change.key) {
        None => summary.writes,
        Some(known) => {
            let pushed = count_pushed(qos, &known, is_write, is_marked, samples, &summary.chains);
            summary.writes.saturating_sub(pushed)
        }
    }
}

/// Whether there may be so many present writes after an accepted change.
fn samples_fit(
    instances: &Instances,
    qos: &ReaderQos,
    arrival: &Arrival,
    samples: &[Kept],
    summary: &Summary,
) -> bool
    requires counted { IsSummary samples.now summary.now }
    ensures { (h : List Happening)
        → AwaitsAccepted qos.now instances.now samples.now arrival.now h
        → result ≡ is_within qos.now.max_samples (present_writes qos.now (Came arrival.now ∷ h)) }
{
    let is_write = is_accepted_write(instances, qos, arrival);
    let is_marked = instances.would_mark(qos, arrival);
    let count = writes_left(
        instances, qos, arrival, is_write, is_marked, samples, summary,
    );
    let is_left = is_write && (is_kept_after(qos.history, 0, false) || is_marked);
    keeps_to(qos.max_samples, count, is_left)
}

/// Whether one sample and one instance more than so many keep to the limits: then each change does.
fn has_spare(qos: &ReaderQos, samples: usize, instances: usize) -> bool
    ensures samples { result ≡ true → is_within qos.now.max_samples (samples + 1) ≡ true }
    ensures instances { result ≡ true → is_within qos.now.max_instances (instances + 1) ≡ true }
{
    keeps_to(qos.max_samples, samples, true) && keeps_to(qos.max_instances, instances, true)
}

/// Whether there is room for a change at a reader of these policies, at which so many came. Its instance is asked for only
/// where no room is to spare; then it is several times over, and its key is looked up once for all.
pub fn is_room(
    instances: &mut Instances,
    qos: &ReaderQos,
    samples: &[Kept],
    summary: &Summary,
    arrivals: u64,
    arrival: &Arrival,
) -> bool
    requires counted { IsSummary samples.now summary.now }
    ensures room { (h : List Happening) → Holds qos.now instances.old samples.now h
        → IsFresh h arrival.now.change.key
        → arrivals ≡ min (arrivals_of h) (2 ^ 64 - 1)
        → result ≡ has_room qos.now h (Came arrival.now) }
    ensures same { instances.new ≡ instances.old }
{
    if qos.max_arrivals <= arrivals {
        return false;
    }
    if has_spare(qos, summary.writes, instances.len()) {
        return true;
    }
    instances.expect(arrival.change.key);
    !instances.accepts(qos, arrival)
        || instances_fit(instances, qos, arrival, samples, summary)
            && samples_fit(instances, qos, arrival, samples, summary)
}
