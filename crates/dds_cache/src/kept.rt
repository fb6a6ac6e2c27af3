//! A sample that is kept.
//!
//! DDS 1.4, 2.2.2.5 (sample_state), 2.2.3 (HISTORY).

ghost use Rattle.std.specs.Prelude.{◌≡◌, ◌+◌, true};
ghost use Rattle.dds_base.specs.Life.{keeps, is_at};
ghost use Rattle.dds_instances.specs.Track.{one_if};
ghost use Rattle.dds_cache.specs.Kept.{has_data, is_live, out_if, read_if, was_read};
ghost use Rattle.dds_cache.specs.Room.{is_write_after};

use dds_base::{Handle, HistoryQos, Moment, Octets, ReaderQos, SamplePosition};
use dds_instances::KnownInstance;
use std::alloc::Global;
use std::mem;

/// A sample, with what is said of it that does not change.
#[derive(Drop)]
pub struct Kept {
    pub sample: SamplePosition,
    /// How many writes of its instance were accepted in its life, up to it.
    pub number: u64,
    /// Whether a read returned it.
    pub is_read: bool,
    /// Whether it is gone, as a take returned it, or as its history does not keep it any more: its place is free once samples
    /// are swept out.
    pub is_out: bool,
    pub valid_data: bool,
    pub disposed_generation_count: u64,
    pub no_writers_generation_count: u64,
    pub source_timestamp: Moment,
    pub publication_handle: Handle,
    /// Its value, none where it is gone.
    pub value: Octets,
}

/// Whether the history keeps a write that so many accepted ones have followed, and one more, if it has.
pub fn is_kept_after(history: HistoryQos, later: u64, one_more: bool) -> bool
    ensures { result ≡ keeps history (later + one_if one_more) }
{
    match history {
        HistoryQos::KeepAll => true,
        HistoryQos::KeepLast(depth) => {
            let depth = u64::from(depth);
            if one_more {
                later < depth.saturating_sub(1)
            } else {
                later < depth
            }
        }
    }
}

pub fn is_position(at: Option<u64>, position: u64) -> bool
    ensures { result ≡ is_at at position }
{
    match at {
        None => false,
        Some(at) => at == position,
    }
}

impl Kept {
    /// Whether it is not gone, and is a write that the history keeps, or the last marker of its instance.
    pub fn is_live(&self, qos: &ReaderQos, known: &KnownInstance) -> bool
        ensures { result ≡ is_live qos.now known.now self.now }
    {
        let later = known.accepted_writes.saturating_sub(self.number);
        !self.is_out
            && (self.valid_data && is_kept_after(qos.history, later, false)
                || is_position(known.last_marker, self.sample.position))
    }

    /// Whether it is a write that is present after a change: by what is known of its instance before it, whether one
    /// more write of the instance is accepted, and whether the change leaves a marker of it.
    pub fn is_write_after(
        &self,
        qos: &ReaderQos,
        known: &KnownInstance,
        one_more: bool,
        is_marked: bool,
    ) -> bool
        ensures { result ≡ is_write_after qos.now known.now one_more is_marked self.now }
    {
        let later = known.accepted_writes.saturating_sub(self.number);
        !self.is_out
            && self.valid_data
            && (is_kept_after(qos.history, later, one_more)
                || !is_marked && is_position(known.last_marker, self.sample.position))
    }

    /// Whether it is not gone, and a read returned it.
    pub fn was_read(&self) -> bool
        ensures { result ≡ was_read self.now }
    {
        !self.is_out && self.is_read
    }

    /// Whether it is not gone, and has data.
    pub fn has_data(&self) -> bool
        ensures { result ≡ has_data self.now }
    {
        !self.is_out && self.valid_data
    }

    /// Takes up that a read returned it.
    pub fn mark_read(&mut self)
        ensures { self.new ≡ read_if true self.old }
    {
        self.is_read = true;
    }

    /// Takes up that it is gone: gives its value away.
    pub fn take_out(&mut self, alloc: Global) -> Octets
        ensures left { self.new ≡ out_if true self.old }
        ensures value { result ≡ self.old.value }
    {
        self.is_out = true;
        mem::replace(&mut self.value, Octets::from_vec(Vec::new(alloc)))
    }
}
