//! The ranks of the samples of a collection.

ghost use Rattle.std.specs.Prelude.{◌<◌};
ghost use Rattle.dds_base.specs.Access.{own_generations};

use crate::tests::rows::{Subject, expect_rows, words_of};
use dds_base::{Handle, InstanceState, Moment, Picked, SampleInfo, SampleState, ViewState};
use dds_info::fill;
use std::alloc::Global;

/// A collection of four samples, and of each its sample_rank, generation_rank and absolute_generation_rank, as DDS 1.4,
/// 2.2.2.5, defines them. A sample is the number of its instance, how often that was reborn when the sample came, and
/// how often by now: of one digit each.
const COLLECTIONS: &str = "\
# Instance 1 was reborn once after its first two samples, and once more after all of them; a sample of another one stands between.
rank 102 255 102 112 => (2 1 2)(0 0 0)(1 1 2)(0 0 1)
";

fn sample_of(word: &str) -> Picked
    ensures { own_generations result < 10 }
{
    let digits: u16 = word.parse().unwrap_or(0);
    Picked {
        sample_state: SampleState::NotRead,
        view_state: ViewState::New,
        instance_state: InstanceState::Alive,
        disposed_generation_count: u64::from(digits / 10 % 10),
        no_writers_generation_count: 0,
        instance_generations: u64::from(digits % 10),
        source_timestamp: Moment::new(0),
        instance_handle: Handle::new(u64::from(digits / 100)),
        publication_handle: Handle::new(1),
        valid_data: true,
    }
}

fn push_ranks(text: &mut String, infos: &[SampleInfo]) {
    for info in infos {
        let (sample, generation) = (info.sample_rank, info.generation_rank);
        let absolute = info.absolute_generation_rank;
        let _ = write!(text, "({sample} {generation} {absolute})");
    }
}

/// Collections of samples.
#[derive(Drop)]
struct Collections;

impl Subject for Collections {
    fn answer(&mut self, alloc: Global, text: &mut String, _name: &str, operands: &str) {
        let words = words_of(operands);
        let collection = [
            sample_of(words.first),
            sample_of(words.second),
            sample_of(words.third),
            sample_of(words.fourth),
        ];
        if let Ok(infos) = fill(alloc, &collection) {
            push_ranks(text, &infos);
        }
    }
}

#[test]
fn collections_are_ranked(rt: HostRuntime) {
    expect_rows(&rt, rt.alloc(), &mut Collections, COLLECTIONS);
}
