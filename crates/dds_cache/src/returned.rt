//! What a read or a take makes of the kept samples.
//!
//! DDS 1.4, 2.2.2.5 (read: samples are READ afterwards; take: they are gone).

ghost use Rattle.std.specs.Prelude.{◌≡◌, List, length, All, vec_len, vec_capacity};
ghost use Rattle.dds_base.specs.declared.happening.SamplePosition.{SamplePosition as Position};
ghost use Rattle.dds_cache.specs.Finding.{AreAt, AreChanged, IsPlaced, IsSmall};
ghost use Rattle.dds_cache.specs.Kept.{IsSummary, read_if};
ghost use Rattle.dds_cache.specs.Picking.{IsDelivered, IsGathered};
ghost use Rattle.dds_cache.specs.Settling.{settled};

use crate::access::Candidate;
use crate::access_kind::AccessKind;
use crate::collection::{Access, take_out};
use crate::kept::Kept;
use crate::summary::Summary;
use crate::sweeping::pass_over_taken;
use std::alloc::Global;

/// Marks the samples that a read returned, each at its place, and counts those that were not read before.
fn mark_read(samples: &mut Vec<Kept>, summary: &mut Summary, found: &[Candidate])
    requires placed { All (IsPlaced (length samples.old.items)) found.now }
    requires counted { IsSummary samples.old.items summary.old }
    ensures items { AreChanged read_if found.now samples.old.items samples.new.items }
    ensures counted { IsSummary samples.new.items summary.new }
    ensures len { vec_len samples.new ≡ vec_len samples.old }
    ensures capacity { vec_capacity samples.new ≡ vec_capacity samples.old }
{
    for candidate in found {
        let kept = &mut samples[candidate.at];
        summary.count_read(kept);
        kept.mark_read();
    }
}

/// What an access makes of the kept samples, and of their summary; what it returns is whole then.
pub fn settle(
    alloc: Global,
    kind: AccessKind,
    samples: &mut Vec<Kept>,
    summary: &mut Summary,
    access: &mut Access,
)
    requires gathered { IsGathered (length samples.old.items) access.old }
    requires counted { IsSummary samples.old.items summary.old }
    ensures items { (ss : List Position) → AreAt ss access.old.found.items samples.old.items
        → samples.new.items ≡ settled kind ss samples.old.items }
    ensures positions { access.new.positions ≡ access.old.positions }
    ensures delivered { IsDelivered kind samples.old.items access.old access.new }
    ensures small { All IsSmall samples.old.items → All IsSmall samples.new.items }
    ensures counted { IsSummary samples.new.items summary.new }
    ensures len { vec_len samples.new ≡ vec_len samples.old }
    ensures capacity { vec_capacity samples.new ≡ vec_capacity samples.old }
{
    if access.found.is_empty() {
        return;
    }
    match kind {
        AccessKind::Read => {
            mark_read(samples, summary, &access.found);
            summary.chains.advance(samples, access.found[0].sample.key);
        }
        AccessKind::Take => {
            take_out(alloc, samples, summary, &access.found, &mut access.samples);
            pass_over_taken(samples, summary, access.found[0].sample.key);
        }
    }
}
