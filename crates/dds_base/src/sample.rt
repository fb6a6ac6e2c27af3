//! What a read or a take says of a sample.
//!
//! DDS 1.4, 2.2.2.5 (SampleInfo).

ghost use Rattle.std.specs.Prelude.{◌≡◌};

use crate::handle::Handle;
use crate::key::Key;
use crate::moment::Moment;
use crate::octets::Octets;
use std::alloc::AllocError;

/// Whether a sample was read before.
///
/// DDS 1.4, 2.2.2.5 (sample_state).
#[derive(Clone, Copy, Debug, PartialEq, Eq)]
pub enum SampleState {
    /// A read returned it before.
    Read,
    /// No read returned it yet.
    NotRead,
}

/// Whether the reader has seen the instance since its latest rebirth.
///
/// DDS 1.4, 2.2.2.5 (view_state).
#[derive(Clone, Copy, Debug, PartialEq, Eq)]
pub enum ViewState {
    /// No access returned a sample of it since then.
    New,
    /// Some access did.
    NotNew,
}

/// Whether an instance is alive, or why not.
///
/// DDS 1.4, 2.2.2.5 (instance_state).
#[derive(Clone, Copy, Debug, PartialEq, Eq)]
pub enum InstanceState {
    /// It was written, and since then neither disposed nor left by all its writers.
    Alive,
    /// A writer disposed it.
    NotAliveDisposed,
    /// It was not disposed, and no writer is registered for it any more.
    NotAliveNoWriters,
}

/// What a read or a take says of a sample beside its key and value.
///
/// DDS 1.4, 2.2.2.5 (SampleInfo).
#[derive(Clone, Copy, Debug, PartialEq, Eq)]
pub struct SampleInfo {
    /// Whether it was read before the call.
    pub sample_state: SampleState,
    /// Whether its instance was new before the call.
    pub view_state: ViewState,
    /// Whether its instance was alive before the call.
    pub instance_state: InstanceState,
    /// How often its instance had been reborn after a dispose, when it came.
    pub disposed_generation_count: u64,
    /// How often its instance had been reborn after it had no writers, when it came.
    pub no_writers_generation_count: u64,
    /// How many samples of its instance follow in the collection.
    pub sample_rank: u64,
    /// How many generations later the last sample of its instance in the collection is.
    pub generation_rank: u64,
    /// How many generations later its instance is by now.
    pub absolute_generation_rank: u64,
    /// Of the change, or the moment of the death, in units of 2^-32 second.
    pub source_timestamp: Moment,
    /// The handle of its instance, from 1.
    pub instance_handle: Handle,
    /// The handle of the writer whose change or death it is, from 1.
    pub publication_handle: Handle,
    /// Whether it has a value, or only tells of a state.
    pub valid_data: bool,
}

/// A picked sample before its ranks are known, with the sum of its instance's generation counts at the call.
#[derive(Clone, Copy)]
pub struct Picked {
    /// Whether it was read before the call.
    pub sample_state: SampleState,
    /// Whether its instance was new before the call.
    pub view_state: ViewState,
    /// Whether its instance was alive before the call.
    pub instance_state: InstanceState,
    /// How often its instance had been reborn after a dispose, when it came.
    pub disposed_generation_count: u64,
    /// How often its instance had been reborn after it had no writers, when it came.
    pub no_writers_generation_count: u64,
    /// The sum of its instance's two generation counts at the call.
    pub instance_generations: u64,
    /// Of the change, or the moment of the death, in units of 2^-32 second.
    pub source_timestamp: Moment,
    /// The handle of its instance, from 1.
    pub instance_handle: Handle,
    /// The handle of the writer whose change or death it is, from 1.
    pub publication_handle: Handle,
    /// Whether it has a value, or only tells of a state.
    pub valid_data: bool,
}

/// A sample that a read or a take returned. One without data has an empty value.
///
/// DDS 1.4, 2.2.2.5 (read, take).
#[derive(Debug, Drop, PartialEq, Eq)]
pub struct Sample {
    /// Its instance.
    pub key: Key,
    /// At most `MAX_VALUE` octets; empty where `info.valid_data` is false.
    pub value: Octets,
    /// What is said of it.
    pub info: SampleInfo,
}

impl Clone for Sample {
    ghost is_clone = { λ sample copy. copy ≡ sample };

    fn clone(&self) -> Result<Sample, AllocError> {
        Ok(Sample {
            key: self.key,
            value: self.value.clone()?,
            info: self.info,
        })
    }
}
