//! The ranks of the samples of a collection.
//!
//! DDS 1.4, 2.2.2.5 (sample_rank, generation_rank, absolute_generation_rank). `docs/MODEL.md`, "What is said of a
//! sample". Not here: which samples are picked, and their states and counts (`dds_cache`).
#![tactic(auto)]

ghost use Rattle.std.specs.Prelude.{◌≡◌, ◌≢◌, List, [], ◌<◌, ◌^◌, All, IfOk, IfErr};
ghost use Rattle.dds_base.specs.declared.sample.Picked.{Picked};
ghost use Rattle.dds_base.specs.Access.{infos_of, own_generations, with_ranks};
ghost use Rattle.dds_base.specs.declared.code.Code.TheVariants.{Memory};
ghost use Rattle.dds_info.specs.Followers.{IsFollowed};

mod followers;
mod ranks;

use dds_base::{Code, Handle, Picked, SampleInfo};
use followers::{Followers, followers_of, generations, lesser};
pub use ranks::Ranks;
use std::alloc::Global;

/// The info of a sample, by those of its instance that follow it in the collection.
fn ranked(sample: &Picked, followers: Followers) -> SampleInfo
    requires own { own_generations sample.now < 2 ^ 64 }
    ensures { (later : List Picked) → IsFollowed sample.now later followers
        → result ≡ with_ranks sample.now later }
{
    let own = generations(sample);
    SampleInfo {
        sample_state: sample.sample_state,
        view_state: sample.view_state,
        instance_state: sample.instance_state,
        disposed_generation_count: sample.disposed_generation_count,
        no_writers_generation_count: sample.no_writers_generation_count,
        sample_rank: followers.count,
        generation_rank: followers.recent.saturating_sub(own),
        absolute_generation_rank: sample.instance_generations.saturating_sub(own),
        source_timestamp: sample.source_timestamp,
        instance_handle: sample.instance_handle,
        publication_handle: sample.publication_handle,
        valid_data: sample.valid_data,
    }
}

/// The infos of a collection, in its order.
///
/// The two generation counts of each sample must have a sum below 2^64.
///
/// It goes once over the samples, from the last to the first, where they stand by handle, as those of an access do. Of
/// others it looks for those that follow. Where they do, `Ranks` tells each info without a list of them.
///
/// # Errors
///
/// `Memory` where there are samples and no memory was found for their infos.
///
/// DDS 1.4, 2.2.2.5 (SampleInfo).
pub fn fill(alloc: Global, picked: &[Picked]) -> Result<Vec<SampleInfo>, Code>
    // The two generation counts of each sample have a sum below 2^64.
    requires small { All (λ p. own_generations p < 2 ^ 64) picked.now }
    // The infos are those of the definitions.
    ensures ok { IfOk result (λ infos. infos.items ≡ infos_of picked.now) }
    // The only refusal is for want of memory.
    ensures memory { IfErr result (λ e. e ≡ Memory) }
    // Memory is taken for the infos alone.
    ensures grows { IfErr result (λ e. picked.now ≢ []) }
{
    let mut infos = Vec::with_capacity(alloc, picked.len())?;
    let mut next = Followers {
        count: 0,
        recent: 0,
    };
    let mut least = Handle::new(u64::MAX);
    for done in 0..picked.len() {
        let at = picked.len() - 1 - done;
        let sample = &picked[at];
        next = followers_of(sample, &picked[at + 1..], next, least);
        least = lesser(least, sample.instance_handle);
        infos.push(ranked(sample, next))?;
    }
    infos.reverse();
    Ok(infos)
}
