//! How many matches of a writer or a reader there were and are, and what the application has seen of that.
//!
//! DDS 1.4, 2.2.4.1 (PUBLICATION_MATCHED, SUBSCRIPTION_MATCHED).

ghost use Rattle.std.specs.Prelude.{◌≡◌, ℕ, ◌-◌, ◌^◌, ◌<◌, ◌≤◌, List, length, map, slice_get};
ghost use Rattle.dds_base.specs.Bounds.{max_readers};
ghost use Rattle.dds_base.specs.declared.endpoint.Endpoint.{Endpoint as EndpointOf};
ghost use Rattle.dds_machine.specs.Matching.{is_match_flagged, match_ended, match_made, matched_status, seen_matches};
ghost use Rattle.dds_machine.specs.Part.{Matches, opened_with};
ghost use Rattle.dds_ends.specs.MatchCounts.{CountsFor};
ghost use Rattle.dds_ends.specs.declared.matching.WriterName.{WriterName as WriterNameOf};
ghost use Rattle.dds_ends.specs.MatchedEnds.{readers_of};

use crate::matching::{ReaderName, WriterName};
use dds_base::{Endpoint, MatchedStatus};

/// The matches of a writer or a reader: how many there were, with whom the last one was made or ended, and how many
/// there had been and were when the application looked at them last.
#[derive(Clone, Copy)]
pub struct MatchCounts {
    /// It stays at 2^64 - 1.
    pub made: u64,
    pub last: Option<Endpoint>,
    pub made_seen: u64,
    pub here_seen: u32,
}

impl MatchCounts {
    /// The matches with these readers, which the opening made, and of which nothing is new.
    pub fn with_readers(readers: &[ReaderName]) -> MatchCounts
        requires few { length readers.now ≤ max_readers }
        ensures opened { CountsFor result (opened_with (readers_of readers.now)) }
    {
        let last = match readers.last() {
            Some(name) => Some(name.reader),
            None => None,
        };
        MatchCounts::opened_with(readers.len(), last)
    }

    /// The matches with these writers, which the opening made, and of which nothing is new.
    pub fn with_writers(writers: &[WriterName]) -> MatchCounts
        requires few { length writers.now ≤ max_readers }
        ensures opened { CountsFor result
            (opened_with (map (λ (n : WriterNameOf). n.writer) writers.now)) }
    {
        let last = match writers.last() {
            Some(name) => Some(name.writer),
            None => None,
        };
        MatchCounts::opened_with(writers.len(), last)
    }

    /// So many, of which this end is the last, which the opening made, and of which nothing is new.
    fn opened_with(count: usize, last: Option<Endpoint>) -> MatchCounts
        requires few { count ≤ max_readers }
        ensures opened { (ends : List EndpointOf) → count ≡ length ends
            → last ≡ slice_get ends (count - 1) → CountsFor result (opened_with ends) }
    {
        MatchCounts {
            made: count as u64,
            last,
            made_seen: count as u64,
            here_seen: count as u32,
        }
    }

    /// One match more, with this end.
    pub fn make(&mut self, end: Endpoint)
        ensures made { (m : Matches) → CountsFor self.old m
            → CountsFor self.new (match_made m end) }
    {
        self.made = self.made.saturating_add(1);
        self.last = Some(end);
    }

    /// One match less, with this end.
    pub fn end(&mut self, end: Endpoint)
        ensures ended { (m : Matches) → CountsFor self.old m
            → CountsFor self.new (match_ended m end) }
    {
        self.last = Some(end);
    }

    /// The status of these matches, of which there are so many.
    pub fn status(&self, here: usize) -> MatchedStatus
        requires few { here < 2 ^ 32 }
        ensures status { (m : Matches) → CountsFor self.now m → result ≡ matched_status m here }
    {
        let here = here as i64;
        MatchedStatus {
            total_count: self.made,
            total_count_change: self.made.saturating_sub(self.made_seen),
            current_count: here,
            current_count_change: here - i64::from(self.here_seen),
            last: self.last,
        }
    }

    /// The application has looked at these matches, of which there are so many.
    pub fn see(&mut self, here: usize)
        requires few { here < 2 ^ 32 }
        ensures seen { (m : Matches) → CountsFor self.old m
            → CountsFor self.new (seen_matches m here) }
    {
        self.made_seen = self.made;
        self.here_seen = here as u32;
    }

    /// Whether one of the counts of these matches, of which there are so many, has changed since the application
    /// looked.
    pub fn is_flagged(&self, here: usize) -> bool
        requires few { here < 2 ^ 32 }
        ensures flagged { (m : Matches) → CountsFor self.now m → result ≡ is_match_flagged m here }
    {
        self.made_seen < self.made || here as u32 != self.here_seen
    }
}
