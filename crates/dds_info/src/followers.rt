//! The samples of the same instance that follow a sample in a collection.
//!
//! DDS 1.4, 2.2.2.5 (sample_rank, generation_rank, absolute_generation_rank).

ghost use Rattle.std.specs.Prelude.{◌≡◌, ◌+◌, ◌<◌, ◌≤◌, ◌^◌, All, min, count_by};
ghost use Rattle.dds_base.specs.Access.{own_generations, most_recent, is_of};
ghost use Rattle.dds_info.specs.Followers.{IsFollowed, IsFirstFollowed, starts_with};

use dds_base::{Handle, Picked};

/// How many samples of its instance follow a sample, and the generation counts of the last of them, or its own.
#[derive(Clone, Copy)]
pub struct Followers {
    pub count: u64,
    pub recent: u64,
}

/// How many of these samples are of an instance.
fn count_of_instance(samples: &[Picked], handle: Handle) -> usize
    ensures { result ≡ count_by (is_of handle) samples.now }
{
    samples
        .iter()
        .filter(|sample| sample.instance_handle == handle)
        .count()
}

/// The generation counts of a sample, added up.
pub fn generations(sample: &Picked) -> u64
    requires { own_generations sample.now < 2 ^ 64 }
    ensures { result ≡ own_generations sample.now }
{
    sample.disposed_generation_count + sample.no_writers_generation_count
}

/// The generation counts of the most recent sample of the same instance, which is the sample itself where none follows.
fn most_recent_generations(sample: &Picked, later: &[Picked]) -> u64
    requires own { own_generations sample.now < 2 ^ 64 }
    requires small { All (λ p. own_generations p < 2 ^ 64) later.now }
    ensures { result ≡ own_generations (most_recent sample.now later.now) }
{
    let mut last = sample;
    for other in later {
        if other.instance_handle == sample.instance_handle {
            last = other;
        }
    }
    generations(last)
}

/// Whether the first of the samples is of an instance.
fn is_first(samples: &[Picked], handle: Handle) -> bool
    ensures { result ≡ starts_with handle samples.now }
{
    match samples.first() {
        None => false,
        Some(first) => first.instance_handle == handle,
    }
}

/// The handle with the lesser number.
pub fn lesser(first: Handle, second: Handle) -> Handle
    ensures { result ≡ min first second }
{
    Handle::new(first.number().min(second.number()))
}

/// The followers of a sample, by those of the next one and the least handle of those that follow. Only where a sample
/// of another instance comes next, and the handles do not rise, it looks at those that follow.
pub fn followers_of(sample: &Picked, later: &[Picked], next: Followers, least: Handle) -> Followers
    requires own { own_generations sample.now < 2 ^ 64 }
    requires small { All (λ p. own_generations p < 2 ^ 64) later.now }
    requires next { IsFirstFollowed later.now next }
    requires least { All (λ p. least ≤ p.instance_handle) later.now }
    ensures { IsFollowed sample.now later.now result }
{
    let handle = sample.instance_handle;
    if is_first(later, handle) {
        return Followers {
            count: next.count + 1,
            recent: next.recent,
        };
    }
    if handle.number() < least.number() {
        return Followers {
            count: 0,
            recent: generations(sample),
        };
    }
    Followers {
        count: count_of_instance(later, handle) as u64,
        recent: most_recent_generations(sample, later),
    }
}
