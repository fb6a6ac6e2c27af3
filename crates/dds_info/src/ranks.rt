//! The ranks of a collection that stands by handle, without a list of what is known of its samples.
//!
//! DDS 1.4, 2.2.2.5 (sample_rank, generation_rank, absolute_generation_rank).

ghost use Rattle.std.specs.Prelude.{◌≡◌, ◌+◌, ◌<◌, ◌^◌, ◌∷◌, [], List};
ghost use Rattle.dds_base.specs.declared.sample.Picked.{Picked};
ghost use Rattle.dds_base.specs.Access.{own_generations, with_ranks};
ghost use Rattle.dds_info.specs.Followers.{IsFollowed};
ghost use Rattle.dds_info.specs.Ranking.{AreTold, StandsBefore};

use crate::followers::{Followers, generations};
use crate::ranked;
use dds_base::{Handle, Picked, SampleInfo};
use std::marker::Model;

/// A sample that others follow, by its instance and by how it is followed.
#[derive(Clone, Copy)]
pub struct Next {
    pub handle: Handle,
    pub followers: Followers,
}

/// What has to be known of the last samples of a collection for the ranks of the one before them. It is told of the
/// samples from the last to the first, and they have to stand by handle, as those of an access do.
///
/// DDS 1.4, 2.2.2.5 (SampleInfo).
#[derive(Drop)]
pub struct Ranks {
    /// The sample that was told last, if there is one.
    next: Option<Next>,
}

impl Model for Ranks {
    ghost use Rattle.std.specs.Prelude.{Option};
    ghost use Rattle.dds_info.specs.declared.ranks.Next.{Next};

    ghost Value = { Option Next };

    ghost view = { λ r. r.next };
}

impl Ranks {
    /// Of no sample.
    pub fn new() -> Ranks
        // No sample was told.
        ensures none { AreTold [] result }
    {
        Ranks { next: None }
    }

    /// How a sample is followed that stands before those that were told.
    fn followers(&self, sample: &Picked) -> Followers
        requires small { own_generations sample.now < 2 ^ 64 }
        ensures followed { (later : List Picked) → StandsBefore sample.now later self.now
            → IsFollowed sample.now later result }
    {
        let Some(next) = self.next else {
            return Followers {
                count: 0,
                recent: generations(sample),
            };
        };
        if next.handle != sample.instance_handle {
            return Followers {
                count: 0,
                recent: generations(sample),
            };
        }
        Followers {
            count: next.followers.count.saturating_add(1),
            recent: next.followers.recent,
        }
    }

    /// The info of the sample before those that were told, which is told with it.
    ///
    /// Its two generation counts must have a sum below 2^64.
    ///
    /// DDS 1.4, 2.2.2.5 (SampleInfo).
    pub fn precede(&mut self, sample: &Picked) -> SampleInfo
        // Its two generation counts have a sum below 2^64.
        requires small { own_generations sample.now < 2 ^ 64 }
        // The info is that of the definitions, where the samples stand by handle, and are fewer than 2^64.
        ensures info { (later : List Picked) → StandsBefore sample.now later self.old
            → result ≡ with_ranks sample.now later }
        // It is told, before the others.
        ensures told { (later : List Picked) → StandsBefore sample.now later self.old
            → AreTold (sample.now ∷ later) self.new }
    {
        let followers = self.followers(sample);
        self.next = Some(Next {
            handle: sample.instance_handle,
            followers,
        });
        ranked(sample, followers)
    }
}
