//! What a change pushes out of the history of its instance is let go.
//!
//! DDS 1.4, 2.2.3 (HISTORY).

ghost use Rattle.std.specs.Prelude.{◌≡◌, ◌<◌, ◌&&◌, List, All, true, false, length, vec_len, vec_capacity};
ghost use Rattle.dds_base.specs.declared.happening.Happening.{Happening};
ghost use Rattle.dds_base.specs.Happening.{same_key};
ghost use Rattle.dds_base.specs.Presence.{is_present};
ghost use Rattle.dds_instances.specs.Known.{IsKnown};
ghost use Rattle.dds_instances.specs.Table.{Table};
ghost use Rattle.dds_cache.specs.Finding.{Holds, HoldsBut, IsSmall};
ghost use Rattle.dds_cache.specs.Kept.{IsKept, IsSummary, IsUpToDate, has_data};
ghost use Rattle.dds_cache.specs.Pushing.{IsLetAt};

use crate::kept::Kept;
use crate::summary::{Summary, let_out};
use dds_base::{HistoryQos, Key, ReaderQos};
use dds_instances::{Instances, KnownInstance};
use std::alloc::Global;

/// Whether a kept sample is of an instance, and no longer present.
fn is_past(qos: &ReaderQos, known: &KnownInstance, kept: &Kept) -> bool
    ensures past { (h : List Happening) → IsKnown qos.now h known.now → IsKept qos.now h kept.now
        → result ≡ true → is_present qos.now h kept.now.sample.key kept.now.sample.position ≡ false }
    ensures there { (h : List Happening) → IsKnown qos.now h known.now → IsKept qos.now h kept.now
        → result ≡ false → same_key kept.now.sample.key known.now.key ≡ true
        → is_present qos.now h kept.now.sample.key kept.now.sample.position ≡ true }
{
    kept.sample.key == known.key && !kept.is_live(qos, known)
}

/// Whether a kept sample is of an instance, is not gone, and has data.
fn is_own_data(known: &KnownInstance, kept: &Kept) -> bool
    ensures { result ≡ (same_key kept.now.sample.key known.now.key && has_data kept.now) }
{
    kept.sample.key == known.key && kept.has_data()
}

/// Lets the sample at a place go, where it is of an instance and no longer present. Returns whether it is one of the instance
/// that has data and stays.
fn let_past_go(
    alloc: Global,
    qos: &ReaderQos,
    known: &KnownInstance,
    samples: &mut Vec<Kept>,
    summary: &mut Summary,
    place: usize,
) -> bool
    requires within { place < length samples.old.items }
    requires counted { IsSummary samples.old.items summary.old }
    ensures goes { IsLetAt qos.now known.now place samples.old.items result samples.new.items }
    ensures counted { IsSummary samples.new.items summary.new }
    ensures len { vec_len samples.new ≡ vec_len samples.old }
    ensures capacity { vec_capacity samples.new ≡ vec_capacity samples.old }
{
    if is_past(qos, known, &samples[place]) {
        let_out(alloc, samples, summary, place);
        return false;
    }
    is_own_data(known, &samples[place])
}

/// Lets the samples of an instance go that are no longer present, from its first one on, as far as the first that has data
/// and stays: those behind it stay too.
fn let_first_go(
    alloc: Global,
    qos: &ReaderQos,
    known: &KnownInstance,
    samples: &mut Vec<Kept>,
    summary: &mut Summary,
)
    requires counted { IsSummary samples.old.items summary.old }
    ensures holds { (table : Table) (h : List Happening) → IsKnown qos.now h known.now
        → HoldsBut qos.now table samples.old.items h known.now.key
        → Holds qos.now table samples.new.items h }
    ensures small { All IsSmall samples.old.items → All IsSmall samples.new.items }
    ensures counted { IsSummary samples.new.items summary.new }
    ensures len { vec_len samples.new ≡ vec_len samples.old }
    ensures capacity { vec_capacity samples.new ≡ vec_capacity samples.old }
{
    let mut place = summary.chains.first(known.key, false);
    while place < samples.len() {
        if let_past_go(alloc, qos, known, samples, summary, place) {
            return;
        }
        place = summary.chains.next(samples, known.key, place);
    }
}

/// Lets the samples go that a change of an instance pushed out of its history, by what is known of the instance. It costs what
/// it lets go: a sample that was pushed out stands before those that were not, but for the last marker.
pub fn push_out_of(
    alloc: Global,
    qos: &ReaderQos,
    known: KnownInstance,
    samples: &mut Vec<Kept>,
    summary: &mut Summary,
)
    requires counted { IsSummary samples.old.items summary.old }
    ensures holds { (table : Table) (h : List Happening) → IsKnown qos.now h known
        → HoldsBut qos.now table samples.old.items h known.key
        → Holds qos.now table samples.new.items h }
    ensures small { All IsSmall samples.old.items → All IsSmall samples.new.items }
    ensures counted { IsSummary samples.new.items summary.new }
    ensures len { vec_len samples.new ≡ vec_len samples.old }
    ensures capacity { vec_capacity samples.new ≡ vec_capacity samples.old }
{
    let before = summary.outs;
    let_first_go(alloc, qos, &known, samples, summary);
    if before < summary.outs {
        summary.chains.advance(samples, known.key);
    }
}

/// The same of one more write, where it is told whether its sample stands alone: then it pushes out none.
#[inline(always)]
pub fn push_out_by_write(
    alloc: Global,
    qos: &ReaderQos,
    known: &KnownInstance,
    samples: &mut Vec<Kept>,
    summary: &mut Summary,
    is_alone: bool,
)
    requires counted { IsSummary samples.old.items summary.old }
    ensures holds { (table : Table) (h : List Happening) → IsKnown qos.now h known.now
        → (is_alone ≡ true → All (IsUpToDate qos.now h) samples.old.items)
        → HoldsBut qos.now table samples.old.items h known.now.key
        → Holds qos.now table samples.new.items h }
    ensures small { All IsSmall samples.old.items → All IsSmall samples.new.items }
    ensures counted { IsSummary samples.new.items summary.new }
    ensures len { vec_len samples.new ≡ vec_len samples.old }
    ensures capacity { vec_capacity samples.new ≡ vec_capacity samples.old }
{
    if is_alone {
        return;
    }
    let HistoryQos::KeepLast(_) = qos.history else {
        return;
    };
    push_out_of(alloc, qos, *known, samples, summary);
}

/// Lets the samples go that a change of an instance pushed out of its history, where that is of the last ones alone. The
/// instances have taken the change up.
pub fn push_out(
    alloc: Global,
    instances: &Instances,
    qos: &ReaderQos,
    samples: &mut Vec<Kept>,
    summary: &mut Summary,
    key: Key,
)
    requires counted { IsSummary samples.old.items summary.old }
    ensures holds { (h : List Happening) → HoldsBut qos.now instances.now samples.old.items h key
        → Holds qos.now instances.now samples.new.items h }
    ensures small { All IsSmall samples.old.items → All IsSmall samples.new.items }
    ensures counted { IsSummary samples.new.items summary.new }
    ensures len { vec_len samples.new ≡ vec_len samples.old }
    ensures capacity { vec_capacity samples.new ≡ vec_capacity samples.old }
{
    if let HistoryQos::KeepAll = qos.history {
        return;
    }
    match instances.known(key) {
        None => {}
        Some(known) => push_out_of(alloc, qos, known, samples, summary),
    }
}
