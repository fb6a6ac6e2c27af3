//! What is known of the kept samples together: how many of them are gone, how many of the others were read, and have data,
//! and where those of each instance are.
//!
//! DDS 1.4, 2.2.2.5 (sample_state, valid_data).

ghost use Rattle.std.specs.Prelude.{◌≡◌, ◌<◌, ◌≤◌, ◌+◌, ◌-◌, ◌^◌, ◌&&◌, ◌++◌, ◌∷◌, [], if◌then◌else◌, not, true, false, All, length, vec_len, vec_capacity};
ghost use Rattle.dds_cache.specs.Kept.{IsOutAt, IsSummary, IsUnasked, has_data, is_in, was_read};

use crate::chains::Chains;
use crate::kept::Kept;
use crate::masks::asks_for_sample;
use dds_base::{Octets, SampleState, SampleStateMask};
use std::alloc::Global;

/// How many of the kept samples are gone, how many of the others were read, and have data, and where those of each instance
/// are.
#[derive(Drop)]
pub struct Summary {
    /// How many of them are gone.
    pub outs: usize,
    /// How many of the others a read returned.
    pub reads: usize,
    /// How many of the others have data.
    pub writes: usize,
    /// Where those of each instance are.
    pub chains: Chains,
}

impl Summary {
    /// Of no samples.
    pub fn new(alloc: Global) -> Summary
        ensures { IsSummary [] result }
    {
        Summary {
            outs: 0,
            reads: 0,
            writes: 0,
            chains: Chains::new(alloc),
        }
    }

    /// Sums these samples up anew. It goes once over them.
    #[inline(always)]
    pub fn renew(&mut self, samples: &[Kept])
        ensures { IsSummary samples.now self.new }
    {
        self.outs = 0;
        self.reads = 0;
        self.writes = 0;
        self.chains.clear();
        for (place, kept) in samples.iter().enumerate() {
            self.outs += usize::from(kept.is_out);
            self.reads += usize::from(kept.was_read());
            self.writes += usize::from(kept.has_data());
            self.chains.append(kept.sample.key, place);
        }
    }

    /// Whether the mask asks for none of the samples that were counted: for none that was read where all were, or for
    /// none that was not where none was.
    pub fn exclude(&self, samples: &[Kept], mask: SampleStateMask) -> bool
        ensures { IsSummary samples.now self.now → result ≡ true → All (IsUnasked mask) samples.now }
    {
        let others = samples.len().saturating_sub(self.outs);
        self.reads == others && !asks_for_sample(mask, SampleState::Read)
            || self.reads == 0 && !asks_for_sample(mask, SampleState::NotRead)
    }

    /// Takes up that a read returns this one of the samples.
    pub fn count_read(&mut self, kept: &Kept)
        requires fits { self.old.reads + 1 < 2 ^ 64 }
        ensures reads { self.new.reads ≡ self.old.reads + (if is_in kept.now && not kept.now.is_read then 1 else 0) }
        ensures outs { self.new.outs ≡ self.old.outs }
        ensures writes { self.new.writes ≡ self.old.writes }
        ensures chains { self.new.chains ≡ self.old.chains }
    {
        self.reads += usize::from(!kept.is_out && !kept.is_read);
    }

    /// Takes up that this one of the samples is gone.
    pub fn count_out(&mut self, kept: &Kept)
        requires fits { self.old.outs + 1 < 2 ^ 64 }
        ensures outs { self.new.outs ≡ self.old.outs + (if is_in kept.now then 1 else 0) }
        ensures reads { self.new.reads ≡ self.old.reads - (if was_read kept.now then 1 else 0) }
        ensures writes { self.new.writes ≡ self.old.writes - (if has_data kept.now then 1 else 0) }
        ensures chains { self.new.chains ≡ self.old.chains }
    {
        self.outs += usize::from(!kept.is_out);
        self.reads = self.reads.saturating_sub(usize::from(kept.was_read()));
        self.writes = self.writes.saturating_sub(usize::from(kept.has_data()));
    }
}

/// Marks the sample at a place as gone, counts it so, and gives its value away.
pub fn let_out(
    alloc: Global,
    samples: &mut Vec<Kept>,
    summary: &mut Summary,
    place: usize,
) -> Octets
    requires within { place < length samples.old.items }
    requires counted { IsSummary samples.old.items summary.old }
    ensures out { IsOutAt place samples.old.items result samples.new.items }
    ensures counted { IsSummary samples.new.items summary.new }
    ensures len { vec_len samples.new ≡ vec_len samples.old }
    ensures capacity { vec_capacity samples.new ≡ vec_capacity samples.old }
{
    let kept = &mut samples[place];
    summary.count_out(kept);
    kept.take_out(alloc)
}

/// Adds a sample that was not read, in the room that there is.
#[inline(always)]
pub fn add(samples: &mut Vec<Kept>, summary: &mut Summary, kept: Kept)
    requires room { vec_len samples.old < vec_capacity samples.old }
    requires unread { kept.is_read ≡ false }
    requires stays { kept.is_out ≡ false }
    requires counted { IsSummary samples.old.items summary.old }
    ensures items { samples.new.items ≡ samples.old.items ++ kept ∷ [] }
    ensures counted { IsSummary samples.new.items summary.new }
    ensures len { vec_len samples.new ≡ vec_len samples.old + 1 }
    ensures capacity { vec_capacity samples.old ≤ vec_capacity samples.new }
{
    summary.writes += usize::from(kept.valid_data);
    summary.chains.append(kept.sample.key, samples.len());
    samples.push_reserved(kept);
}
