//! Samples that are no longer present are let go.
//!
//! DDS 1.4, 2.2.3 (HISTORY).

ghost use Rattle.std.specs.Prelude.{◌≡◌, ◌≤◌, ◌+◌, ◌-◌, ◌*◌, ◌^◌, min, List, All, filter, vec_len, vec_capacity};
ghost use Rattle.dds_base.specs.declared.happening.Happening.{Happening};
ghost use Rattle.dds_instances.specs.Table.{Stands};
ghost use Rattle.dds_cache.specs.Finding.{IsSmall};
ghost use Rattle.dds_cache.specs.Kept.{IsSummary};
ghost use Rattle.dds_cache.specs.Sweeping.{AreIn, left_since, stays};

use crate::kept::Kept;
use crate::summary::Summary;
use dds_base::{Key, ReaderQos};
use dds_instances::Instances;

/// Fewer samples than this are not swept. `docs/DECISIONS.md`, "A reader's cache", says when others are.
const SWEPT_FROM: usize = 8;

/// Whether a kept sample may still be present.
pub fn is_still_live(instances: &Instances, qos: &ReaderQos, kept: &Kept) -> bool
    ensures { (h : List Happening) → Stands qos.now instances.now h
        → result ≡ stays qos.now h kept.now }
{
    match instances.known(kept.sample.key) {
        None => false,
        Some(known) => kept.is_live(qos, &known),
    }
}

/// Lets the samples go that are no longer present, and counts the others.
pub fn sweep(instances: &Instances, qos: &ReaderQos, samples: &mut Vec<Kept>, summary: &mut Summary)
    ensures items { (h : List Happening) → Stands qos.now instances.now h
        → samples.new.items ≡ filter (stays qos.now h) samples.old.items }
    ensures small { All IsSmall samples.old.items → All IsSmall samples.new.items }
    ensures counted { IsSummary samples.new.items summary.new }
    ensures len { vec_len samples.new ≤ vec_len samples.old }
    ensures capacity { vec_capacity samples.new ≡ vec_capacity samples.old }
{
    samples.retain(|k| is_still_live(instances, qos, k));
    summary.renew(samples);
}

/// Lets the samples go that are no longer present, where fewer instances are known than before: lives have ended then,
/// and their samples are none of what a new life brings.
pub fn let_go(
    instances: &Instances,
    qos: &ReaderQos,
    before: usize,
    samples: &mut Vec<Kept>,
    summary: &mut Summary,
)
    ensures items { (h : List Happening) → Stands qos.now instances.now h
        → samples.new.items ≡ left_since qos.now h before samples.old.items }
    ensures small { All IsSmall samples.old.items → All IsSmall samples.new.items }
    ensures counted { IsSummary samples.old.items summary.old
        → IsSummary samples.new.items summary.new }
    ensures len { vec_len samples.new ≤ vec_len samples.old }
    ensures capacity { vec_capacity samples.new ≡ vec_capacity samples.old }
{
    if instances.len() < before {
        sweep(instances, qos, samples, summary);
    }
}

/// Whether more than half of the samples are gone.
fn are_mostly_out(samples: &[Kept], summary: &Summary) -> bool {
    samples.len() / 2 < summary.outs
}

/// Has the samples of an instance begin behind those that are gone, where these are not swept out at once.
pub fn pass_over_taken(samples: &[Kept], summary: &mut Summary, key: Key)
    requires counted { IsSummary samples.now summary.old }
    ensures counted { IsSummary samples.now summary.new }
{
    if !are_mostly_out(samples, summary) {
        summary.chains.advance(samples, key);
    }
}

/// Sweeps the samples out that are gone, where they are more than half of all: so a take costs what it returns, and a
/// place that it leaves is free before long.
pub fn let_out_go(samples: &mut Vec<Kept>, summary: &mut Summary)
    requires counted { IsSummary samples.old.items summary.old }
    ensures items { AreIn samples.old.items samples.new.items }
    ensures small { All IsSmall samples.old.items → All IsSmall samples.new.items }
    ensures counted { IsSummary samples.new.items summary.new }
    ensures len { vec_len samples.new ≤ vec_len samples.old }
    ensures capacity { vec_capacity samples.new ≡ vec_capacity samples.old }
{
    if are_mostly_out(samples, summary) {
        samples.retain(|k| !k.is_out);
        summary.renew(samples);
    }
}

/// At how many samples the next sweep is due, where so many were left: when their number has doubled.
pub fn next_sweep(len: usize) -> usize
    ensures doubled { min (len * 2) (2 ^ 64 - 1) ≤ result }
    ensures bound { result ≤ len * 2 + 16 }
{
    len.saturating_mul(2).max(SWEPT_FROM)
}
